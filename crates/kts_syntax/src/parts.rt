ghost use Rattle.std.specs.Prelude.{◌≡◌, ◌-◌, ◌<◌, [], OnOk, IfErr};
ghost use Rattle.kts_syntax.specs.Faults.{IsNoMemory};
ghost use Rattle.kts_syntax.specs.Readings.{no_parts, with_last};
ghost use Rattle.kts_syntax.specs.Rooms.{trees_at_part};

use crate::expr::Expr;
use crate::fault::FormFault;
use crate::word::Word;
use kts_base::List;
use std::alloc::Global;

/// One part of an expression.
#[derive(Debug, Drop)]
pub enum Part {
    /// A variable, its index, and where they are bound.
    Bound((Word, Word, usize)),
    Operand(Expr),
}

/// The parts of an expression.
#[derive(Debug, Drop)]
pub struct Parts {
    pub binders: List<(Word, Word, usize)>,
    pub exprs: List<Expr>,
}

impl Parts {
    pub fn new(alloc: Global) -> Parts
        ensures { result ≡ no_parts }
    {
        Parts {
            binders: List::new(alloc),
            exprs: List::new(alloc),
        }
    }

    /// Appends a part, of which an operand takes one of the room. Where no room is left then, the part is dropped.
    #[tactic(auto, unfolding(crate::specs::Readings::with_last))]
    pub fn push(&mut self, part: Part, room: &mut usize) -> Result<(), FormFault>
        ensures room { OnOk result (room.new ≡ room.old - trees_at_part part) }
        ensures ok { OnOk result (0 < room.new → self.new ≡ with_last self.old part) }
        ensures err { IfErr result IsNoMemory }
    {
        match part {
            Part::Bound(binder) => {
                if *room > 0 {
                    self.binders.push(binder)?;
                }
            }
            Part::Operand(expr) => {
                *room = room.saturating_sub(1);
                if *room > 0 {
                    self.exprs.push(expr)?;
                }
            }
        }
        Ok(())
    }
}
