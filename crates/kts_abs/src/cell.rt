use kts_semi::{Semi, Window};
use kts_sets::Choice;

/// What is known of one cell of a schedule.
#[derive(Clone, Copy, Debug)]
pub enum Cell<const W: usize> {
    /// Of a whole number.
    Win(Window),
    /// Of a member, by its position.
    Mem(Choice<W>),
}

impl<const W: usize> Semi for Cell<W> {
    ghost use Rattle.kts_abs.specs.Cells.{IsValid, is_above, joined, extent};
    ghost use Rattle.kts_abs.specs.CellLaws.{cell_laws};

    ghost Valid = { IsValid };

    ghost le = { is_above };

    ghost joined = { joined };

    ghost extent = { extent };

    ghost laws = { cell_laws };

    fn leq(&self, other: &Self) -> bool {
        match (self, other) {
            (Cell::Win(a), Cell::Win(b)) => a.leq(b),
            (Cell::Mem(a), Cell::Mem(b)) => a.leq(b),
            _ => {
                // A size tells that its cell is valid.
                let _sizes = (self.size(), other.size());
                false
            }
        }
    }

    fn join(&self, other: &Self) -> Option<Self> {
        match (self, other) {
            (Cell::Win(a), Cell::Win(b)) => Some(Cell::Win(a.join(b)?)),
            (Cell::Mem(a), Cell::Mem(b)) => Some(Cell::Mem(a.join(b)?)),
            _ => None,
        }
    }

    fn size(&self) -> u64 {
        match self {
            Cell::Win(a) => a.size(),
            Cell::Mem(a) => a.size(),
        }
    }
}
