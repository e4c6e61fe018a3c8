ghost use Rattle.std.specs.Prelude.{◌≡◌, ◌<◌, ◌≤◌, ◌+◌, length, IfOk, IfSome};

use crate::fault::CaseFault;
use kts_base::{Name, read_numeral};
use std::str;

/// The most that a number of a file of cases may be.
const MAX_COUNT: u64 = 1_000_000_000;

/// What a block is.
#[derive(Clone, Copy, PartialEq, Eq)]
pub enum Key {
    Case,
    Word,
    Path,
    File,
    Feeds,
    Load,
    Fail,
    Cut,
    Room,
    Before,
    Status,
    Output,
}

impl Key {
    fn of(bytes: &[u8]) -> Option<Key> {
        let keys: [(&[u8], Key); 12] = [
            (b"case", Key::Case),
            (b"word", Key::Word),
            (b"path", Key::Path),
            (b"file", Key::File),
            (b"feeds", Key::Feeds),
            (b"load", Key::Load),
            (b"fail", Key::Fail),
            (b"cut", Key::Cut),
            (b"room", Key::Room),
            (b"before", Key::Before),
            (b"status", Key::Status),
            (b"output", Key::Output),
        ];
        for (word, key) in keys {
            if word == bytes {
                return Some(key);
            }
        }
        None
    }
}

/// A block, and its place in the file.
#[derive(Clone, Copy)]
pub struct Block<'a> {
    pub key: Key,
    pub bytes: &'a [u8],
    at: usize,
}

impl<'a> Block<'a> {
    pub fn broken(&self) -> CaseFault {
        CaseFault::Broken { at: self.at }
    }

    pub fn text(&self) -> Result<&'a str, CaseFault> {
        str::from_utf8(self.bytes).map_err(|_| self.broken())
    }

    pub fn name(&self) -> Result<Name, CaseFault> {
        Name::new(self.bytes).ok_or(self.broken())
    }

    pub fn number(&self) -> Result<u64, CaseFault> {
        read_numeral(0, MAX_COUNT, self.bytes).ok_or(self.broken())
    }

    /// Two numbers with a blank between them.
    pub fn pair(&self) -> Result<(u64, u64), CaseFault> {
        let (first, second) = split_at_byte(self.bytes, b' ').ok_or(self.broken())?;
        let first = read_numeral(0, MAX_COUNT, first).ok_or(self.broken())?;
        let second = read_numeral(0, MAX_COUNT, second).ok_or(self.broken())?;
        Ok((first, second))
    }
}

// What stands before the first such byte, and what stands after it.
fn split_at_byte(bytes: &[u8], byte: u8) -> Option<(&[u8], &[u8])>
    ensures { IfSome result (λ parts. length parts.0.now + 1 + length parts.1.now ≡ length bytes.now) }
{
    let at = bytes.iter().position(|b| *b == byte)?;
    Some((&bytes[..at], &bytes[at + 1..]))
}

/// Splits a file of cases into its blocks: a key, a blank, a length and a line feed, then so many bytes and a line feed.
#[derive(Drop)]
pub struct Blocks<'a> {
    rest: &'a [u8],
    size: usize,
    ghost within: { length rest.now ≤ size },
}

impl<'a> Blocks<'a> {
    pub fn new(text: &'a [u8]) -> Blocks<'a> {
        Blocks {
            rest: text,
            size: text.len(),
        }
    }

    fn at(&self) -> usize {
        self.size - self.rest.len()
    }

    pub fn broken(&self) -> CaseFault {
        CaseFault::Broken { at: self.at() }
    }

    /// The next block; None at the end of the file.
    pub fn next(&mut self) -> Result<Option<Block<'a>>, CaseFault>
        ensures nearer { IfOk result (λ next. IfSome next (λ _. length self.new.rest.now < length self.old.rest.now)) }
        ensures on { length self.new.rest.now ≤ length self.old.rest.now }
    {
        if self.rest.is_empty() {
            return Ok(None);
        }
        let at = self.at();
        let (header, body) = split_at_byte(self.rest, b'\n').ok_or(self.broken())?;
        let (key, length) = split_at_byte(header, b' ').ok_or(self.broken())?;
        let key = Key::of(key).ok_or(self.broken())?;
        let length = read_numeral(0, MAX_COUNT, length).ok_or(self.broken())? as usize;
        if body.len() <= length || body[length] != b'\n' {
            return Err(self.broken());
        }
        self.rest = &body[length + 1..];
        Ok(Some(Block {
            key,
            bytes: &body[..length],
            at,
        }))
    }

    /// The next block, which has this key.
    pub fn expect(&mut self, key: Key) -> Result<Block<'a>, CaseFault>
        ensures on { length self.new.rest.now ≤ length self.old.rest.now }
    {
        let broken = self.broken();
        match self.next()? {
            Some(block) if block.key == key => Ok(block),
            _ => Err(broken),
        }
    }
}
