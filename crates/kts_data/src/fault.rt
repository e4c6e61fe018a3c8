ghost use Rattle.std.specs.Prelude.{◌≡◌, ◌++◌, Err, Some, None};
ghost use Rattle.std.specs.Prelude.{decimal};
ghost use Rattle.kts_base.specs.Writes.{Wrote};
ghost use Rattle.kts_data.specs.Faults.{fault, fault_text, name_text, reason_text};

use itoa::Buffer;
use kts_base::{Name, NoMemory, Sink, SinkFault, put_pieces};

/// Why data are refused.
#[derive(Clone, Copy, Debug, PartialEq, Eq)]
pub enum Reason {
    /// The bytes aren't JSON.
    NotJson,
    /// They are JSON, and no object.
    NotObject,
    /// There is no key of this name.
    MissingName,
    /// A key is no name that is asked for.
    UnknownName,
    /// A list stands nowhere where one is needed.
    NotList,
    /// A list has another number of elements than there are members.
    WrongLength,
    /// A text stands nowhere where one is needed.
    NotText,
    /// A text is no name of a member.
    BadName,
    /// A member stands twice.
    Repeated,
    /// A whole number stands nowhere where one is needed.
    NotWhole,
    /// A number lies outside its type.
    OutOfRange,
    /// A text names no member of the index.
    UnknownMember,
    /// An index has so many members.
    TooManyMembers(u64),
    /// There are so many cells.
    TooManyCells(u64),
    /// There are so many tasks.
    TooManyTasks(u64),
    NoMemory,
}

/// What is wrong with data, under which name, and at which element.
///
/// The element is the position in an index's list; the number of the tuple for a value; the number of the row for a fault of
/// a row; the number of the key in byte order for a key that is no name; 0 elsewhere.
#[derive(Clone, Copy, Debug, PartialEq, Eq)]
pub struct DataFault {
    name: Option<Name>,
    element: usize,
    reason: Reason,
}

impl DataFault {
    pub fn new(name: Option<Name>, element: usize, reason: Reason) -> DataFault
        ensures { result ≡ record { name = name; element = element; reason = reason } }
    {
        DataFault {
            name,
            element,
            reason,
        }
    }

    /// The name of the index, the given or the choice; none where none is at fault.
    pub fn name(&self) -> Option<Name>
        ensures { result ≡ self.now.name }
    {
        self.name
    }

    pub fn element(&self) -> usize
        ensures { result ≡ self.now.element }
    {
        self.element
    }

    pub fn reason(&self) -> Reason
        ensures { result ≡ self.now.reason }
    {
        self.reason
    }
}

impl From<NoMemory> for DataFault {
    ghost use Rattle.std.specs.Prelude.{◌≡◌, None};
    ghost use Rattle.kts_data.specs.declared.fault.Reason.TheVariants.{NoMemory as Refused};

    ghost from_gives = { λ _ fault. fault ≡ record { name = None; element = 0; reason = Refused } };

    fn from(_refused: NoMemory) -> DataFault {
        DataFault {
            name: None,
            element: 0,
            reason: Reason::NoMemory,
        }
    }
}

impl DataFault {
    /// Puts the reason, the name and the element. Takes no memory.
    #[tactic(auto, unfolding(crate::specs::Faults::fault_text))]
    pub fn put<S: Sink>(&self, out: &mut S) -> Result<(), SinkFault>
        ensures { Wrote result (S.log out.old) (S.log out.new) (fault_text self.now) }
    {
        self.reason.put(out)?;
        let mut buffer = Buffer::new();
        let element = buffer.format(self.element);
        put_pieces(
            out,
            &[b" ", name_bytes(&self.name), b" ", element.as_bytes()],
        )
    }
}

// The name, or a dash.
fn name_bytes(name: &Option<Name>) -> &[u8]
    ensures { result.now ≡ name_text name.now }
{
    match name {
        Some(name) => name.bytes(),
        None => b"-",
    }
}

impl Reason {
    fn put<S: Sink>(&self, out: &mut S) -> Result<(), SinkFault>
        ensures { Wrote result (S.log out.old) (S.log out.new) (reason_text self.now) }
    {
        match self {
            Reason::NotJson => out.put(b"NotJson"),
            Reason::NotObject => out.put(b"NotObject"),
            Reason::MissingName => out.put(b"MissingName"),
            Reason::UnknownName => out.put(b"UnknownName"),
            Reason::NotList => out.put(b"NotList"),
            Reason::WrongLength => out.put(b"WrongLength"),
            Reason::NotText => out.put(b"NotText"),
            Reason::BadName => out.put(b"BadName"),
            Reason::Repeated => out.put(b"Repeated"),
            Reason::NotWhole => out.put(b"NotWhole"),
            Reason::OutOfRange => out.put(b"OutOfRange"),
            Reason::UnknownMember => out.put(b"UnknownMember"),
            Reason::TooManyMembers(n) => put_counted(out, b"TooManyMembers ", *n),
            Reason::TooManyCells(n) => put_counted(out, b"TooManyCells ", *n),
            Reason::TooManyTasks(n) => put_counted(out, b"TooManyTasks ", *n),
            Reason::NoMemory => out.put(b"NoMemory"),
        }
    }
}

fn put_counted<S: Sink>(out: &mut S, word: &[u8], count: u64) -> Result<(), SinkFault>
    ensures { Wrote result (S.log out.old) (S.log out.new) (word.now ++ decimal count) }
{
    let mut buffer = Buffer::new();
    put_pieces(out, &[word, buffer.format(count).as_bytes()])
}

/// A fault at an element under a name.
pub fn fail_at<T>(name: &Name, element: usize, reason: Reason) -> Result<T, DataFault>
    ensures { result ≡ Err (fault (Some name.now) element reason) }
{
    Err(DataFault::new(Some(*name), element, reason))
}

/// A fault under no name.
pub fn fail_whole<T>(element: usize, reason: Reason) -> Result<T, DataFault>
    ensures { result ≡ Err (fault None element reason) }
{
    Err(DataFault::new(None, element, reason))
}
