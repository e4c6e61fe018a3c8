ghost use Rattle.std.specs.Prelude.{◌≡◌};
ghost use Rattle.kts_text.specs.Shown.{trees_left};
ghost use Rattle.kts_syntax.specs.Readings.{name_at, number_at, first_name, first_number, is_none, rest};
ghost use Rattle.kts_syntax.specs.Sizes.{count};

use crate::fault::{FormFault, FormKind};
use crate::names::name_of;
use crate::numbers::number_of;
use crate::word::Word;
use kts_base::fail;
use kts_text::{Front, Siblings};

/// How many trees stand side by side.
#[tactic(auto, using(crate::proofs::SiblingCounts::counts))]
pub fn count(trees: &Siblings) -> usize
    ensures { result ≡ count (trees_left trees.now) }
{
    let mut n = 0;
    let mut left = *trees;
    loop {
        match left.front() {
            Front::End => return n,
            Front::Atom { after, .. } => left = after,
            Front::List { after, .. } => left = after,
        }
        n += 1;
    }
}

/// The trees after the first.
pub fn rest<'a>(trees: &Siblings<'a>) -> Siblings<'a>
    ensures { trees_left result ≡ rest (trees_left trees.now) }
{
    match trees.front() {
        Front::End => *trees,
        Front::Atom { after, .. } => after,
        Front::List { after, .. } => after,
    }
}

/// Whether there is no tree.
pub fn is_none(trees: &Siblings) -> bool
    ensures { result ≡ is_none (trees_left trees.now) }
{
    match trees.front() {
        Front::End => true,
        _ => false,
    }
}

/// An atom as a name.
#[tactic(auto, unfolding(crate::specs::Readings::name_at))]
pub fn name_at(at: usize, bytes: &[u8]) -> Result<Word, FormFault>
    ensures { result ≡ name_at at bytes.now }
{
    match name_of(bytes) {
        Some(name) => Ok(Word::new(name, at)),
        None => fail(FormKind::NotAForm, at),
    }
}

/// An atom as a number.
#[tactic(auto, unfolding(crate::specs::Readings::number_at))]
pub fn number_at(at: usize, bytes: &[u8]) -> Result<i64, FormFault>
    ensures { result ≡ number_at at bytes.now }
{
    match number_of(bytes) {
        Some(n) => Ok(n),
        None => fail(FormKind::BadNumber, at),
    }
}

/// The first tree as a name.
#[tactic(auto, unfolding(crate::specs::Readings::first_name))]
pub fn first_name(trees: &Siblings) -> Result<Word, FormFault>
    ensures { result ≡ first_name (trees_left trees.now) }
{
    match trees.front() {
        Front::End => fail(FormKind::NotAForm, 0),
        Front::Atom { place, bytes, .. } => name_at(place, bytes),
        Front::List { start, .. } => fail(FormKind::NotAForm, start),
    }
}

/// The first tree as a number.
#[tactic(auto, unfolding(crate::specs::Readings::first_number))]
pub fn first_number(trees: &Siblings) -> Result<i64, FormFault>
    ensures { result ≡ first_number (trees_left trees.now) }
{
    match trees.front() {
        Front::End => fail(FormKind::NotAForm, 0),
        Front::Atom { place, bytes, .. } => number_at(place, bytes),
        Front::List { start, .. } => fail(FormKind::NotAForm, start),
    }
}
