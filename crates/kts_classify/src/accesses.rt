ghost use Rattle.std.specs.Prelude.{◌≡◌, ◌≤◌, ◌∷◌, [], length, map, flat_map, OnOk};
ghost use Rattle.std.specs.List.{list_any};
ghost use Rattle.kts_classify.specs.PlanPatterns.{access_pattern, extended, is_alike};
ghost use Rattle.kts_spec.specs.Reads.{reads_in, reads_of};

use crate::arguments::{are_arguments, arguments};
use kts_base::{List, NoMemory};
use kts_index::Pattern;
use kts_spec::{Formula, Term};
use std::alloc::Global;

/// A constraint whose accesses are gone through: its number, how many variables its prefix has, and where its patterns begin.
#[derive(Clone, Copy)]
pub struct Reader {
    pub definite: u32,
    pub variables: usize,
    pub first: usize,
}

/// Appends the patterns of the accesses in a term, but for those that stand already.
#[cycle(accesses)]
#[tactic(auto, using(kts_spec::proofs::ReadEquations::accesses))]
pub fn add_term(
    alloc: Global,
    reader: Reader,
    term: &Term,
    patterns: &mut List<Pattern>,
) -> Result<(), NoMemory>
    requires { reader.first ≤ length patterns.old }
    ensures { OnOk result (patterns.new ≡ extended reader.first patterns.old (map (access_pattern reader.definite reader.variables) (reads_of term.now))) }
{
    match term {
        Term::Number(_) => Ok(()),
        Term::Var(_) => Ok(()),
        Term::Given(_, args) => add_terms(alloc, reader, args.as_slice(), patterns),
        Term::Choice(x, args) => {
            add_access(alloc, reader, *x, args.as_slice(), patterns)?;
            add_terms(alloc, reader, args.as_slice(), patterns)
        }
        Term::Add(parts) => add_terms(alloc, reader, parts.as_slice(), patterns),
        Term::Sub(parts) => add_terms(alloc, reader, parts.as_slice(), patterns),
        Term::Mul(parts) => add_terms(alloc, reader, parts.as_slice(), patterns),
        Term::Min(parts) => add_terms(alloc, reader, parts.as_slice(), patterns),
        Term::Max(parts) => add_terms(alloc, reader, parts.as_slice(), patterns),
        Term::Sum(_, p, a) => {
            add_formula(alloc, reader, p.get(), patterns)?;
            add_term(alloc, reader, a.get(), patterns)
        }
    }
}

#[cycle(accesses)]
#[tactic(auto, using(kts_spec::proofs::ReadEquations::accesses))]
fn add_terms(
    alloc: Global,
    reader: Reader,
    terms: &[Term],
    patterns: &mut List<Pattern>,
) -> Result<(), NoMemory>
    requires { reader.first ≤ length patterns.old }
    ensures { OnOk result (patterns.new ≡ extended reader.first patterns.old (map (access_pattern reader.definite reader.variables) (flat_map reads_of terms.now))) }
{
    for term in terms {
        add_term(alloc, reader, term, patterns)?;
    }
    Ok(())
}

/// The same of those in a formula.
#[cycle(accesses)]
#[tactic(auto, using(kts_spec::proofs::ReadEquations::accesses))]
pub fn add_formula(
    alloc: Global,
    reader: Reader,
    p: &Formula,
    patterns: &mut List<Pattern>,
) -> Result<(), NoMemory>
    requires { reader.first ≤ length patterns.old }
    ensures { OnOk result (patterns.new ≡ extended reader.first patterns.old (map (access_pattern reader.definite reader.variables) (reads_in p.now))) }
{
    match p {
        Formula::Compare(_, a, b) => {
            add_term(alloc, reader, a, patterns)?;
            add_term(alloc, reader, b, patterns)
        }
        Formula::And(parts) => add_formulas(alloc, reader, parts.as_slice(), patterns),
        Formula::Or(parts) => add_formulas(alloc, reader, parts.as_slice(), patterns),
        Formula::Not(p) => add_formula(alloc, reader, p.get(), patterns),
        Formula::Implies(p, q) => {
            add_formula(alloc, reader, p.get(), patterns)?;
            add_formula(alloc, reader, q.get(), patterns)
        }
        Formula::Forall(_, p) => add_formula(alloc, reader, p.get(), patterns),
        Formula::Exists(_, p) => add_formula(alloc, reader, p.get(), patterns),
    }
}

#[cycle(accesses)]
#[tactic(auto, using(kts_spec::proofs::ReadEquations::accesses))]
fn add_formulas(
    alloc: Global,
    reader: Reader,
    ps: &[Formula],
    patterns: &mut List<Pattern>,
) -> Result<(), NoMemory>
    requires { reader.first ≤ length patterns.old }
    ensures { OnOk result (patterns.new ≡ extended reader.first patterns.old (map (access_pattern reader.definite reader.variables) (flat_map reads_in ps.now))) }
{
    for p in ps {
        add_formula(alloc, reader, p, patterns)?;
    }
    Ok(())
}

// Appends the pattern of an access, unless it stands already.
fn add_access(
    alloc: Global,
    reader: Reader,
    choice: u32,
    args: &[Term],
    patterns: &mut List<Pattern>,
) -> Result<(), NoMemory>
    requires { reader.first ≤ length patterns.old }
    ensures { OnOk result (patterns.new ≡ extended reader.first patterns.old (access_pattern reader.definite reader.variables (choice, args.now) ∷ [])) }
{
    if stands(reader, choice, args, &patterns.as_slice()[reader.first..]) {
        return Ok(());
    }
    let args = arguments(alloc, args, reader.variables)?;
    patterns.push(Pattern::new(reader.definite, choice, args))
}

// Whether the pattern of an access is among these.
fn stands(reader: Reader, choice: u32, args: &[Term], patterns: &[Pattern]) -> bool
    ensures { result ≡ list_any (is_alike (access_pattern reader.definite reader.variables (choice, args.now))) patterns.now }
{
    for pattern in patterns {
        if choice == pattern.choice()
            && are_arguments(args, reader.variables, pattern.args().as_slice())
        {
            return true;
        }
    }
    false
}
