ghost use Rattle.std.specs.Prelude.{◌≡◌};
ghost use Rattle.kts_syntax.specs.declared.expr.Expr.{out-Expr, roll-Expr};

use crate::head::Head;
use crate::word::Word;
use kts_base::List;

/// A term or a formula.
#[derive(Debug, Drop)]
pub struct Expr {
    at: usize,
    head: Head,
    binders: List<(Word, Word, usize)>,
    parts: List<Expr>,
}

impl Expr {
    /// The binders are variables with their indexes, and the places where they are bound.
    pub fn new(at: usize, head: Head, binders: List<(Word, Word, usize)>, parts: List<Expr>) -> Expr
        ensures { result ≡ roll-Expr (record { at = at; head = head; binders = binders; parts = parts }) }
    {
        Expr {
            at,
            head,
            binders,
            parts,
        }
    }

    /// The place of its first byte, counted from 0.
    pub fn at(&self) -> usize
        ensures { result ≡ (out-Expr self.now).at }
    {
        self.at
    }

    pub fn head(&self) -> Head
        ensures { result ≡ (out-Expr self.now).head }
    {
        self.head
    }

    pub fn binders(&self) -> &List<(Word, Word, usize)>
        ensures { result.now ≡ (out-Expr self.now).binders }
    {
        &self.binders
    }

    pub fn parts(&self) -> &List<Expr>
        ensures { result.now ≡ (out-Expr self.now).parts }
    {
        &self.parts
    }
}
