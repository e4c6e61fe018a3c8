ghost use Rattle.std.specs.Prelude.{◌≡◌, ◌≤◌, ◌⊎◌, [], true, Some, IfOk, IfErr, MatchResult};
ghost use Rattle.kts_base.specs.Limits.{most_nesting};
ghost use Rattle.kts_base.specs.Reads.{Gives};
ghost use Rattle.kts_syntax.specs.Fitting.{forms_fit};
ghost use Rattle.kts_syntax.specs.Shown.{ast_of};
ghost use Rattle.kts_syntax.specs.Sizes.{forms_nest};
ghost use Rattle.kts_check.specs.Faults.{IsNoMemory};
ghost use Rattle.kts_check.specs.Declarations.{no_declarations};
ghost use Rattle.kts_check.specs.Faulty.{FirstFault};
ghost use Rattle.kts_check.specs.Forms.{Parts, declarations_of, parts_of, parts, declarations_in};
ghost use Rattle.kts_check.specs.Sound.{AreConsistent};
ghost use Rattle.kts_check.specs.Specs.{are_small, spec_of};
ghost use Rattle.kts_check.specs.Typed.{Typed};

use crate::fault::SpecFault;
use crate::forms::declaration_of;
use crate::symbol_table::SymbolTable;
use kts_base::List;
use kts_spec::{Schema, Spec};
use kts_syntax::{Form, Forms};
use std::alloc::Global;

/// What is declared after all forms.
fn table_after(alloc: Global, forms: &[Form]) -> Result<SymbolTable, SpecFault>
    requires fits { forms_fit [] forms.now ≡ true }
    requires shallow { forms_nest forms.now ≤ most_nesting }
    ensures table { Gives IsNoMemory declarations_in result (declarations_of no_declarations forms.now) }
    ensures sound { IfOk result (λ table. AreConsistent forms.now (declarations_in table)) }
{
    let mut table = SymbolTable::new(alloc);
    for form in forms {
        let declaration = declaration_of(alloc, &table, form)?;
        table.add(declaration)?;
    }
    Ok(table)
}

/// The specification that forms say, or the fault that comes first.
#[tactic(auto, unfolding(crate::specs::Forms::parts_of))]
fn specification(alloc: Global, forms: &Forms) -> Result<Spec, SpecFault>
    ensures parts { Gives IsNoMemory parts result (parts_of (ast_of forms.now)) }
    ensures tasks { IfOk result (λ spec. spec.schema.tasks ≡ []) }
    ensures small { IfOk result (λ spec. are_small spec.formulas ≡ true) }
{
    let table = table_after(alloc, forms.forms().as_slice())?;
    let schema = Schema::new(
        forms.name(),
        table.decls,
        table.indexes,
        table.givens,
        table.choices,
        List::new(alloc),
    );
    Ok(Spec::new(schema, table.formulas))
}

/// The specification that forms say where they are well typed, and else the fault that comes first.
pub fn check(alloc: Global, forms: &Forms) -> Result<Spec, SpecFault>
    ensures parts { Gives IsNoMemory parts result (parts_of (ast_of forms.now)) }
    ensures typed { IfOk result (λ spec. Typed (ast_of forms.now) (parts spec)) }
    ensures only { (p : Parts) → Typed (ast_of forms.now) p → MatchResult result (λ spec. parts spec ≡ p) IsNoMemory }
    ensures first { IfErr result (λ fault. IsNoMemory fault ⊎ FirstFault (ast_of forms.now) fault) }
    ensures whole { IfOk result (λ spec. spec_of (parts spec) ≡ Some spec) }
    ensures tasks { IfOk result (λ spec. spec.schema.tasks ≡ []) }
    ensures small { IfOk result (λ spec. are_small spec.formulas ≡ true) }
{
    specification(alloc, forms)
}
