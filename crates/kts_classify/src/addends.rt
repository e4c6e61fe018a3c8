ghost use Rattle.std.specs.Prelude.{◌≡◌, ◌++◌, map, flat_map, IfOk, OnOk};
ghost use Rattle.kts_spec.specs.Addends.{minus as minus_lem};
ghost use Rattle.kts_classify.specs.SignedTerms.{addend_of, signed_addends};

use kts_base::{List, NoMemory};
use kts_spec::Term;
use std::alloc::Global;

/// The addends of the first term minus the second, each with whether it is taken away.
pub fn difference<'a>(
    alloc: Global,
    a: &'a Term,
    b: &'a Term,
) -> Result<List<(bool, &'a Term)>, NoMemory>
    ensures { IfOk result (λ sum. map (λ t. addend_of t.0 t.1.now) sum ≡ minus_lem a.now b.now) }
{
    let mut sum = List::new(alloc);
    add_addends(false, a, &mut sum)?;
    add_addends(true, b, &mut sum)?;
    Ok(sum)
}

// Appends the addends of a term, which may be taken away.
#[cycle(addends)]
fn add_addends<'a>(
    minus: bool,
    term: &'a Term,
    sum: &mut List<(bool, &'a Term)>,
) -> Result<(), NoMemory>
    ensures { OnOk result (map (λ t. addend_of t.0 t.1.now) sum.new ≡ map (λ t. addend_of t.0 t.1.now) sum.old ++ signed_addends minus term.now) }
{
    match term {
        Term::Add(parts) => add_each(minus, parts.as_slice(), sum),
        Term::Sub(parts) => match parts.as_slice() {
            [] => Ok(()),
            [first, others @ ..] => {
                add_addends(minus, first, sum)?;
                add_each(!minus, others, sum)
            }
        },
        _ => sum.push((minus, term)),
    }
}

#[cycle(addends)]
fn add_each<'a>(
    minus: bool,
    parts: &'a [Term],
    sum: &mut List<(bool, &'a Term)>,
) -> Result<(), NoMemory>
    ensures { OnOk result (map (λ t. addend_of t.0 t.1.now) sum.new ≡ map (λ t. addend_of t.0 t.1.now) sum.old ++ flat_map (signed_addends minus) parts.now) }
{
    for part in parts {
        add_addends(minus, part, sum)?;
    }
    Ok(())
}
