ghost use Rattle.std.specs.Prelude.{◌≡◌, IfOk};
ghost use Rattle.kts_classify.specs.PlanPatterns.{same_argument, same_arguments};
ghost use Rattle.kts_plan.specs.TaskReads.{one_of_first, prefix_arguments, variable_of};

use kts_base::{List, NoMemory};
use kts_spec::Term;
use std::alloc::Global;

/// For each argument of an access the variable of the prefix that it is, where the prefix has so many variables.
pub fn arguments(
    alloc: Global,
    args: &[Term],
    variables: usize,
) -> Result<List<Option<u8>>, NoMemory>
    ensures { IfOk result (λ arguments. arguments ≡ prefix_arguments variables args.now) }
{
    let mut arguments = List::new(alloc);
    for arg in args {
        arguments.push(argument(arg, variables))?;
    }
    Ok(arguments)
}

/// Whether these are those arguments.
pub fn are_arguments(args: &[Term], variables: usize, others: &[Option<u8>]) -> bool
    ensures { result ≡ same_arguments (prefix_arguments variables args.now) others.now }
{
    if args.len() != others.len() {
        return false;
    }
    for k in 0..args.len() {
        if !is_same(argument(&args[k], variables), others[k]) {
            return false;
        }
    }
    true
}

fn argument(arg: &Term, variables: usize) -> Option<u8>
    ensures { result ≡ one_of_first variables (variable_of arg.now) }
{
    match arg {
        Term::Var(k) => {
            if usize::from(*k) < variables {
                return Some(*k);
            }
            None
        }
        _ => None,
    }
}

fn is_same(a: Option<u8>, b: Option<u8>) -> bool
    ensures { result ≡ same_argument a b }
{
    match (a, b) {
        (None, None) => true,
        (Some(k), Some(m)) => k == m,
        _ => false,
    }
}
