ghost use Rattle.std.specs.Prelude.{◌≡◌, find};
ghost use Rattle.kts_syntax.specs.Words.{is_text};
ghost use Rattle.kts_syntax.specs.Heads.{keyword, operation_of, head_of, has_parts, layout_of};

use crate::head::Head::{
    self, Add, And, Eq, Exists, Forall, Ge, Gt, Implies, Le, Lt, Max, Min, Mul, Ne, Not, Number,
    Or, Sub, Sum, Use,
};
use crate::layout::{Layout, Role};
use crate::names::{is_text, name_of};
use crate::word::Word;
use kts_base::MAX_ARGUMENTS;

const TERM_OPERATIONS: [Head; 6] = [Add, Sub, Mul, Min, Max, Sum];

const FORMULA_OPERATIONS: [Head; 12] = [
    Le, Lt, Ge, Gt, Eq, Ne, And, Or, Not, Implies, Forall, Exists,
];

/// The word of an operation; numbers and names have none.
#[tactic(auto, unfolding(crate::specs::Heads::keyword))]
pub fn keyword(head: &Head) -> &'static [u8]
    ensures { result.now ≡ keyword head.now }
{
    match head {
        Add => b"+",
        Sub => b"-",
        Mul => b"*",
        Min => b"min",
        Max => b"max",
        Sum => b"sum",
        Le => b"<=",
        Lt => b"<",
        Ge => b">=",
        Gt => b">",
        Eq => b"=",
        Ne => b"/=",
        And => b"and",
        Or => b"or",
        Not => b"not",
        Implies => b"=>",
        Forall => b"forall",
        Exists => b"exists",
        Number(_) | Use(_) => b"",
    }
}

fn operation_in(heads: &[Head], word: &[u8]) -> Option<Head>
    ensures { result ≡ find (λ head. is_text (keyword head) word.now) heads.now }
{
    for head in heads {
        if is_text(keyword(head), word) {
            return Some(*head);
        }
    }
    None
}

#[tactic(auto, unfolding(crate::specs::Heads::operation_of))]
fn operation_of(role: Role, word: &[u8]) -> Option<Head>
    ensures { result ≡ operation_of role word.now }
{
    match role {
        Role::Binder => None,
        Role::Term => operation_in(&TERM_OPERATIONS, word),
        Role::Formula => operation_in(&FORMULA_OPERATIONS, word),
    }
}

/// The head that a word at a place is, in a list of this role.
#[tactic(auto, unfolding(crate::specs::Heads::head_of))]
pub fn head_of(role: Role, at: usize, word: &[u8]) -> Option<Head>
    ensures { result ≡ head_of role at word.now }
{
    match (operation_of(role, word), role) {
        (None, Role::Term) => Some(Use(Word::new(name_of(word)?, at))),
        (found, _) => found,
    }
}

/// Whether a list with this head may have so many parts after it.
#[tactic(auto, unfolding(crate::specs::Heads::has_parts))]
pub fn has_parts(head: &Head, n: usize) -> bool
    ensures { result ≡ has_parts head.now n }
{
    match head {
        Add | And | Or | Forall | Exists => 2 <= n,
        Sum => n == 3,
        Not => n == 1,
        Number(_) => false,
        Use(_) => 1 <= n && n <= MAX_ARGUMENTS,
        _ => n == 2,
    }
}

/// What the parts of a list with this head are.
#[tactic(auto, unfolding(crate::specs::Heads::layout_of))]
pub fn layout_of(head: &Head) -> Layout
    ensures { result ≡ layout_of head.now }
{
    match head {
        Sum => Layout::Summed,
        And | Or | Not | Implies => Layout::Formulas,
        Forall | Exists => Layout::Quantified,
        _ => Layout::Terms,
    }
}
