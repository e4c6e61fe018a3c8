ghost use Rattle.std.specs.Prelude.{◌≡◌, ◌⊎◌, ◌<◌, length, get_or, [], map, Ok, Err, OnOk, IfErr};
ghost use Rattle.std.specs.List.{list_any};
ghost use Rattle.kts_base.specs.Reads.{Gives};
ghost use Rattle.kts_spec.specs.Names.{same_name, is_among};
ghost use Rattle.kts_spec.specs.Schemas.{assigns_members, family_at};
ghost use Rattle.kts_spec.specs.declared.declarations.Family.{Family as FamilyOf};
ghost use Rattle.kts_read.specs.Faults.{IsNoMemory};
ghost use Rattle.kts_read.specs.Lines.{words_in};
ghost use Rattle.kts_read.specs.DeclarationLines.{no_declarations, is_taken, new_name, with_index, index_line, end_at, index_at, int_type, member_type, args_from, named_family, family_in, with_given, given_line, with_choice, choose_line, has_manifest, with_manifest, manifest_line};

use crate::fault::CodeKind;
use crate::lines::{count_words, word};
use crate::names::{is_text, name_in};
use crate::numbers::{number_below, number_of};
use kts_base::{List, MAX_CHOICES, MAX_GIVENS, MAX_INDEXES, MAX_TYPE_END, Name};
use kts_spec::{Decl, Family, ValueType};
use std::alloc::Global;

/// What is declared: the declarations in their order, and the indexes, givens and choices.
#[derive(Debug, Drop)]
pub struct Declared {
    pub(crate) decls: List<Decl>,
    pub(crate) indexes: List<Name>,
    pub(crate) givens: List<Family>,
    pub(crate) choices: List<Family>,
}

fn is_among(names: &[Name], name: &[u8]) -> bool
    ensures { result ≡ is_among names.now name.now }
{
    for other in names {
        if is_text(name, other.bytes()) {
            return true;
        }
    }
    false
}

fn is_named(families: &[Family], name: &[u8]) -> bool
    ensures { result ≡ list_any (same_name name.now) (map (λ (f : FamilyOf). f.name) families.now) }
{
    for family in families {
        if is_text(name, family.name().bytes()) {
            return true;
        }
    }
    false
}

/// The end of a type.
#[tactic(auto, unfolding(crate::specs::DeclarationLines::end_at))]
fn end_at(word: &[u8]) -> Result<i64, CodeKind>
    ensures { result ≡ end_at word.now }
{
    match number_of(word) {
        None => Err(CodeKind::BadNumber),
        Some(z) => {
            if -MAX_TYPE_END <= z && z <= MAX_TYPE_END {
                return Ok(z);
            }
            Err(CodeKind::BadNumber)
        }
    }
}

/// The number of one of so many indexes.
#[tactic(auto, unfolding(crate::specs::DeclarationLines::index_at))]
fn index_at(indexes: usize, word: &[u8]) -> Result<u32, CodeKind>
    ensures { result ≡ index_at indexes word.now }
{
    match number_below(indexes, word) {
        None => Err(CodeKind::BadNumber),
        Some(index) => Ok(index),
    }
}

/// The type whose ends stand in a line.
#[tactic(auto, unfolding(crate::specs::DeclarationLines::int_type))]
fn int_type(line: &[u8]) -> Result<ValueType, CodeKind>
    ensures { result ≡ int_type (words_in line.now) }
{
    let lo = match end_at(word(line, 3)) {
        Ok(lo) => lo,
        Err(kind) => return Err(kind),
    };
    let hi = match end_at(word(line, 4)) {
        Ok(hi) => hi,
        Err(kind) => return Err(kind),
    };
    if lo <= hi {
        return Ok(ValueType::Int { lo, hi });
    }
    Err(CodeKind::BadNumber)
}

/// The type whose index stands in a line.
#[tactic(auto, unfolding(crate::specs::DeclarationLines::member_type))]
fn member_type(indexes: usize, line: &[u8]) -> Result<ValueType, CodeKind>
    ensures { result ≡ member_type indexes (words_in line.now) }
{
    match index_at(indexes, word(line, 3)) {
        Ok(index) => Ok(ValueType::Member(index)),
        Err(kind) => Err(kind),
    }
}

/// The indexes that the words of a line are, from this one on.
#[tactic(auto, unfolding(crate::specs::DeclarationLines::args_from))]
pub fn args_from(
    alloc: Global,
    indexes: usize,
    from: usize,
    line: &[u8],
) -> Result<List<u32>, CodeKind>
    ensures { Gives IsNoMemory (λ args. args) result (args_from indexes from (words_in line.now)) }
{
    let mut args = List::new(alloc);
    let mut k = from;
    let count = count_words(line);
    while k < count {
        match index_at(indexes, word(line, k)) {
            Err(kind) => return Err(kind),
            Ok(index) => {
                if let Err(_) = args.push(index) {
                    return Err(CodeKind::NoMemory);
                }
            }
        }
        k += 1;
    }
    Ok(args)
}

fn assigns_members(family: &Family) -> bool
    ensures { result ≡ assigns_members family.now }
{
    family.args().len() == 1 && matches!(family.kind(), ValueType::Member(_))
}

/// Whether a choice has a manifest.
fn has_manifest(decls: &[Decl], choice: u32) -> bool
    ensures { result ≡ has_manifest decls.now choice }
{
    for decl in decls {
        if let Decl::Manifest(other) = decl {
            if choice == *other {
                return true;
            }
        }
    }
    false
}

/// The family of this number.
pub fn family_at(families: &[Family], number: u32) -> &Family
    requires { number < length families.now }
    ensures { result.now ≡ family_at families.now number }
{
    &families[number as usize]
}

impl Declared {
    /// Nothing.
    pub fn new(alloc: Global) -> Declared
        ensures { result ≡ no_declarations }
    {
        Declared {
            decls: List::new(alloc),
            indexes: List::new(alloc),
            givens: List::new(alloc),
            choices: List::new(alloc),
        }
    }

    /// Whether an index, a given or a choice has this name.
    #[tactic(auto, unfolding(crate::specs::DeclarationLines::is_taken))]
    fn is_taken(&self, name: &[u8]) -> bool
        ensures { result ≡ is_taken self.now name.now }
    {
        is_among(self.indexes.as_slice(), name)
            || is_named(self.givens.as_slice(), name)
            || is_named(self.choices.as_slice(), name)
    }

    /// The name that a word is, where nothing is called so.
    fn new_name(&self, word: &[u8]) -> Option<Name>
        ensures { result ≡ new_name self.now word.now }
    {
        if self.is_taken(word) {
            return None;
        }
        name_in(word)
    }

    /// Takes an index more.
    fn take_index(&mut self, name: Option<Name>) -> Result<(), CodeKind>
        ensures ok { OnOk result (with_index self.old name ≡ Ok self.new) }
        ensures err { IfErr result (λ kind. IsNoMemory kind ⊎ (with_index self.old name ≡ Err kind)) }
    {
        match name {
            None => Err(CodeKind::BadName),
            Some(name) => {
                let number = self.indexes.len();
                if number >= MAX_INDEXES {
                    return Err(CodeKind::TooLong);
                }
                if let Err(_) = self.indexes.push(name) {
                    return Err(CodeKind::NoMemory);
                }
                match self.decls.push(Decl::Index(number as u32)) {
                    Ok(()) => Ok(()),
                    Err(_) => Err(CodeKind::NoMemory),
                }
            }
        }
    }

    #[tactic(auto, unfolding(crate::specs::DeclarationLines::index_line))]
    pub fn index_line(&mut self, line: &[u8]) -> Result<(), CodeKind>
        ensures ok { OnOk result (index_line self.old (words_in line.now) ≡ Ok self.new) }
        ensures err { IfErr result (λ kind. IsNoMemory kind ⊎ (index_line self.old (words_in line.now) ≡ Err kind)) }
    {
        if count_words(line) != 2 {
            return Err(CodeKind::WrongCount);
        }
        let name = self.new_name(word(line, 1));
        self.take_index(name)
    }

    fn typed_family(
        &self,
        alloc: Global,
        kind: Result<ValueType, CodeKind>,
        from: usize,
        line: &[u8],
    ) -> Result<Family, CodeKind>
        ensures { Gives IsNoMemory (λ family. family) result (named_family (new_name self.now (get_or (words_in line.now) 1 [])) kind (args_from (length self.now.indexes) from (words_in line.now))) }
    {
        match self.new_name(word(line, 1)) {
            None => Err(CodeKind::BadName),
            Some(name) => match kind {
                Err(fault) => Err(fault),
                Ok(kind) => match args_from(alloc, self.indexes.len(), from, line) {
                    Err(fault) => Err(fault),
                    Ok(args) => Ok(Family::new(name, args, kind)),
                },
            },
        }
    }

    /// The given or the choice that a line declares.
    #[tactic(auto, unfolding(crate::specs::DeclarationLines::family_in))]
    fn family_in(&self, alloc: Global, line: &[u8]) -> Result<Family, CodeKind>
        ensures { Gives IsNoMemory (λ family. family) result (family_in self.now (words_in line.now)) }
    {
        let count = count_words(line);
        if count < 3 {
            return Err(CodeKind::WrongCount);
        }
        let kind = word(line, 2);
        if is_text(kind, b"int") {
            if count < 5 || count > 7 {
                return Err(CodeKind::WrongCount);
            }
            return self.typed_family(alloc, int_type(line), 5, line);
        }
        if is_text(kind, b"mem") {
            if count < 4 || count > 6 {
                return Err(CodeKind::WrongCount);
            }
            return self.typed_family(alloc, member_type(self.indexes.len(), line), 4, line);
        }
        Err(CodeKind::BadWord)
    }

    /// Takes a given more.
    #[tactic(auto, unfolding(crate::specs::DeclarationLines::with_given))]
    fn take_given(&mut self, family: Family) -> Result<(), CodeKind>
        ensures ok { OnOk result (with_given self.old family ≡ Ok self.new) }
        ensures err { IfErr result (λ kind. IsNoMemory kind ⊎ (with_given self.old family ≡ Err kind)) }
    {
        let number = self.givens.len();
        if number >= MAX_GIVENS {
            return Err(CodeKind::TooLong);
        }
        if let Err(_) = self.givens.push(family) {
            return Err(CodeKind::NoMemory);
        }
        match self.decls.push(Decl::Given(number as u32)) {
            Ok(()) => Ok(()),
            Err(_) => Err(CodeKind::NoMemory),
        }
    }

    #[tactic(auto, unfolding(crate::specs::DeclarationLines::given_line))]
    pub fn given_line(&mut self, alloc: Global, line: &[u8]) -> Result<(), CodeKind>
        ensures ok { OnOk result (given_line self.old (words_in line.now) ≡ Ok self.new) }
        ensures err { IfErr result (λ kind. IsNoMemory kind ⊎ (given_line self.old (words_in line.now) ≡ Err kind)) }
    {
        match self.family_in(alloc, line) {
            Err(kind) => Err(kind),
            Ok(family) => self.take_given(family),
        }
    }

    /// Takes a choice more.
    #[tactic(auto, unfolding(crate::specs::DeclarationLines::with_choice))]
    fn take_choice(&mut self, family: Family) -> Result<(), CodeKind>
        ensures ok { OnOk result (with_choice self.old family ≡ Ok self.new) }
        ensures err { IfErr result (λ kind. IsNoMemory kind ⊎ (with_choice self.old family ≡ Err kind)) }
    {
        let number = self.choices.len();
        if number >= MAX_CHOICES {
            return Err(CodeKind::TooLong);
        }
        if let Err(_) = self.choices.push(family) {
            return Err(CodeKind::NoMemory);
        }
        match self.decls.push(Decl::Choose(number as u32)) {
            Ok(()) => Ok(()),
            Err(_) => Err(CodeKind::NoMemory),
        }
    }

    #[tactic(auto, unfolding(crate::specs::DeclarationLines::choose_line))]
    pub fn choose_line(&mut self, alloc: Global, line: &[u8]) -> Result<(), CodeKind>
        ensures ok { OnOk result (choose_line self.old (words_in line.now) ≡ Ok self.new) }
        ensures err { IfErr result (λ kind. IsNoMemory kind ⊎ (choose_line self.old (words_in line.now) ≡ Err kind)) }
    {
        match self.family_in(alloc, line) {
            Err(kind) => Err(kind),
            Ok(family) => self.take_choice(family),
        }
    }

    /// Takes a manifest more.
    #[tactic(auto, unfolding(crate::specs::DeclarationLines::with_manifest))]
    fn take_manifest(&mut self, choice: u32) -> Result<(), CodeKind>
        requires { choice < length self.old.choices }
        ensures ok { OnOk result (with_manifest self.old choice ≡ Ok self.new) }
        ensures err { IfErr result (λ kind. IsNoMemory kind ⊎ (with_manifest self.old choice ≡ Err kind)) }
    {
        if !assigns_members(family_at(self.choices.as_slice(), choice)) {
            return Err(CodeKind::BadNumber);
        }
        if has_manifest(self.decls.as_slice(), choice) {
            return Err(CodeKind::BadNumber);
        }
        match self.decls.push(Decl::Manifest(choice)) {
            Ok(()) => Ok(()),
            Err(_) => Err(CodeKind::NoMemory),
        }
    }

    #[tactic(auto, unfolding(crate::specs::DeclarationLines::manifest_line))]
    pub fn manifest_line(&mut self, line: &[u8]) -> Result<(), CodeKind>
        ensures ok { OnOk result (manifest_line self.old (words_in line.now) ≡ Ok self.new) }
        ensures err { IfErr result (λ kind. IsNoMemory kind ⊎ (manifest_line self.old (words_in line.now) ≡ Err kind)) }
    {
        if count_words(line) != 2 {
            return Err(CodeKind::WrongCount);
        }
        match number_below(self.choices.len(), word(line, 1)) {
            None => Err(CodeKind::BadNumber),
            Some(choice) => self.take_manifest(choice),
        }
    }
}
