ghost use Rattle.std.specs.Prelude.{◌≡◌, length, map, option_map, pos, true, IfSome};
ghost use Rattle.kts_abs.specs.Cells.{IsValid, is_above, value_of};
ghost use Rattle.kts_abs.specs.Demands.{Suits, only_member, meets as meets_lem, raised as raised_lem};
ghost use Rattle.kts_abs.specs.Values.{Win, Mem};
ghost use Rattle.kts_code.specs.HeadSteps.{bound_of, only_members};
ghost use Rattle.kts_machine.specs.Items.{items_of, positions_of, sets_of};
ghost use Rattle.kts_machine.specs.OperandViews.{shown};

use crate::operand::Operand;
use crate::up_to_two::UpToTwo;
use kts_abs::{Cell, Op, Operand as Allows};
use kts_semi::{Semi, Window};
use kts_sets::Choice;
use kts_spec::ValueType;

fn window_meets(op: Op, bound: &Window, cell: &Window) -> bool
    requires { Suits op (Win cell.now) }
    ensures { result ≡ meets_lem (op, Win bound.now) (Win cell.now) }
{
    match op {
        Op::AtLeast => bound.lo() <= cell.lo(),
        Op::AtMost => cell.hi() <= bound.hi(),
        Op::Within => unreachable!(),
        Op::Without => unreachable!(),
    }
}

fn window_raised(op: Op, bound: &Window, cell: &Window) -> Option<Window>
    requires { Suits op (Win cell.now) }
    ensures { option_map Win result ≡ raised_lem (op, Win bound.now) (Win cell.now) }
{
    match op {
        Op::AtLeast => cell.at_least(bound.lo()),
        Op::AtMost => cell.at_most(bound.hi()),
        Op::Within => unreachable!(),
        Op::Without => unreachable!(),
    }
}

fn without_meets<const W: usize>(bound: &Choice<W>, cell: &Choice<W>) -> bool
    ensures { result ≡ meets_lem (Op.Without, Mem (map pos bound.now)) (Mem (map pos cell.now)) }
{
    let _set = bound.set();
    match bound.single() {
        Some(member) => !cell.set().contains(member),
        None => true,
    }
}

fn set_meets<const W: usize>(op: Op, bound: &Choice<W>, cell: &Choice<W>) -> bool
    requires { Suits op (Mem (map pos cell.now)) }
    ensures { result ≡ meets_lem (op, Mem (map pos bound.now)) (Mem (map pos cell.now)) }
{
    match op {
        Op::Within => Semi::leq(bound, cell),
        Op::Without => without_meets(bound, cell),
        Op::AtLeast => unreachable!(),
        Op::AtMost => unreachable!(),
    }
}

fn without_raised<const W: usize>(bound: &Choice<W>, cell: &Choice<W>) -> Option<Choice<W>>
    ensures { option_map (λ ms. Mem (map pos ms)) result ≡ raised_lem (Op.Without, Mem (map pos bound.now)) (Mem (map pos cell.now)) }
{
    let _sets = (bound.set(), cell.set());
    match bound.single() {
        Some(member) => Choice::new(cell.set().without(member)),
        None => Some(*cell),
    }
}

fn set_raised<const W: usize>(op: Op, bound: &Choice<W>, cell: &Choice<W>) -> Option<Choice<W>>
    requires { Suits op (Mem (map pos cell.now)) }
    ensures { option_map (λ ms. Mem (map pos ms)) result ≡ raised_lem (op, Mem (map pos bound.now)) (Mem (map pos cell.now)) }
{
    match op {
        Op::Within => cell.join(bound),
        Op::Without => without_raised(bound, cell),
        Op::AtLeast => unreachable!(),
        Op::AtMost => unreachable!(),
    }
}

/// Whether a cell meets a demand.
pub fn meets<const W: usize>(op: Op, bound: &Cell<W>, cell: &Cell<W>) -> bool
    requires bound { Suits op (value_of bound.now) }
    requires cell { Suits op (value_of cell.now) }
    ensures { result ≡ meets_lem (op, value_of bound.now) (value_of cell.now) }
{
    match cell {
        Cell::Win(a) => match bound {
            Cell::Win(b) => window_meets(op, b, a),
            Cell::Mem(_) => unreachable!(),
        },
        Cell::Mem(a) => match bound {
            Cell::Mem(b) => set_meets(op, b, a),
            Cell::Win(_) => unreachable!(),
        },
    }
}

/// The greatest part of a cell that meets a demand, where there is one.
pub fn raised<const W: usize>(op: Op, bound: &Cell<W>, cell: &Cell<W>) -> Option<Cell<W>>
    requires bound { Suits op (value_of bound.now) }
    requires cell { Suits op (value_of cell.now) }
    ensures value { option_map value_of result ≡ raised_lem (op, value_of bound.now) (value_of cell.now) }
    ensures above { IfSome result (λ part. is_above cell.now part ≡ true) }
    ensures cell_valid { IfSome result (λ part. IsValid cell.now) }
    ensures valid { IfSome result (λ part. IsValid part) }
{
    match part(op, bound, cell) {
        Some(part) => {
            // A size tells that its cell is valid.
            let _sizes = (cell.size(), part.size());
            Some(part)
        }
        None => None,
    }
}

fn part<const W: usize>(op: Op, bound: &Cell<W>, cell: &Cell<W>) -> Option<Cell<W>>
    requires bound { Suits op (value_of bound.now) }
    requires cell { Suits op (value_of cell.now) }
    ensures { option_map value_of result ≡ raised_lem (op, value_of bound.now) (value_of cell.now) }
{
    match cell {
        Cell::Win(a) => match bound {
            Cell::Win(b) => match window_raised(op, b, a) {
                Some(w) => Some(Cell::Win(w)),
                None => None,
            },
            Cell::Mem(_) => unreachable!(),
        },
        Cell::Mem(a) => match bound {
            Cell::Mem(b) => match set_raised(op, b, a) {
                Some(ms) => Some(Cell::Mem(ms)),
                None => None,
            },
            Cell::Win(_) => unreachable!(),
        },
    }
}

/// The bound of a demand on a cell of this type; None where the operation or the operand is of another kind or index.
pub fn bound<const W: usize>(op: Op, kind: ValueType, x: &Operand<W>) -> Option<Cell<W>>
    ensures { option_map value_of result ≡ bound_of op kind (shown x.now) }
{
    match op {
        Op::AtLeast => window_bound(kind, x),
        Op::AtMost => window_bound(kind, x),
        Op::Within => set_bound(kind, x),
        Op::Without => set_bound(kind, x),
    }
}

fn window_bound<const W: usize>(kind: ValueType, x: &Operand<W>) -> Option<Cell<W>>
    ensures least { option_map value_of result ≡ bound_of Op.AtLeast kind (shown x.now) }
    ensures most { option_map value_of result ≡ bound_of Op.AtMost kind (shown x.now) }
{
    match kind {
        ValueType::Int { .. } => match x.window() {
            Some(w) => Some(Cell::Win(w)),
            None => None,
        },
        ValueType::Member(_) => None,
    }
}

fn set_bound<const W: usize>(kind: ValueType, x: &Operand<W>) -> Option<Cell<W>>
    ensures within { option_map value_of result ≡ bound_of Op.Within kind (shown x.now) }
    ensures without { option_map value_of result ≡ bound_of Op.Without kind (shown x.now) }
{
    match kind {
        ValueType::Member(index) => match x.set(index) {
            Some(ms) => Some(Cell::Mem(ms)),
            None => None,
        },
        ValueType::Int { .. } => None,
    }
}

fn only<const W: usize>(members: &Choice<W>) -> Option<usize>
    ensures { option_map (λ m. pos m) result ≡ only_member (map pos members.now) }
{
    let _set = members.set();
    members.single()
}

/// The members of sets that have one each.
pub fn only_tuple<const W: usize>(sets: &UpToTwo<Choice<W>>) -> Option<UpToTwo<usize>>
    ensures long { IfSome result (λ tuple. length (items_of tuple) ≡ length (items_of sets.now)) }
    ensures tuple { option_map positions_of result ≡ only_members (sets_of sets.now) }
{
    match sets {
        UpToTwo::Zero => Some(UpToTwo::Zero),
        UpToTwo::One(last) => match only(last) {
            Some(member) => Some(UpToTwo::One(member)),
            None => None,
        },
        UpToTwo::Two(first, last) => match only(first) {
            Some(member) => match only(last) {
                Some(other) => Some(UpToTwo::Two(member, other)),
                None => None,
            },
            None => None,
        },
    }
}
