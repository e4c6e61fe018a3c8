ghost use Rattle.std.specs.Prelude.{◌≡◌, ◌⊎◌, ℕ, List, IfOk, IfErr, MatchResult};
ghost use Rattle.kts_base.specs.Reads.{Gives};
ghost use Rattle.kts_text.specs.Grammar.{TreesOf};
ghost use Rattle.kts_text.specs.Shown.{trees_in, trees_left};
ghost use Rattle.kts_syntax.specs.Faults.{IsNoMemory};
ghost use Rattle.kts_syntax.specs.Faulty.{EndsFirst, faulty_trees};
ghost use Rattle.kts_syntax.specs.FormsOf.{FormsOf};
ghost use Rattle.kts_syntax.specs.Shown.{ast_of};
ghost use Rattle.kts_syntax.specs.Tops.{Ast, forms_of};

use crate::fault::{FormFault, FormKind};
use crate::forms::Forms;
use crate::tops::{later_forms, spec_name};
use kts_base::fail;
use kts_text::{Front, Trees};
use std::alloc::Global;

/// The forms of trees, each read in turn.
#[tactic(auto, unfolding(crate::specs::Tops::forms_of))]
fn forms_of(alloc: Global, trees: &Trees) -> Result<Forms, FormFault>
    ensures { Gives IsNoMemory ast_of result (forms_of (trees_in trees.now)) }
{
    let all = trees.all();
    match all.front() {
        Front::End => fail(FormKind::NotAForm, 0),
        Front::Atom { place, .. } => fail(FormKind::NotAForm, place),
        Front::List {
            start,
            inside,
            after,
            ..
        } => {
            let word = spec_name(start, &inside)?;
            let forms = later_forms(alloc, &after)?;
            Ok(Forms::new(word.name(), forms))
        }
    }
}

/// The forms of a file of trees, or the fault of the tree at fault that ends first.
pub fn read_forms(alloc: Global, trees: &Trees) -> Result<Forms, FormFault>
    ensures value { Gives IsNoMemory ast_of result (forms_of (trees_in trees.now)) }
    ensures found { IfOk result (λ forms. FormsOf (trees_in trees.now) (ast_of forms)) }
    ensures only { (ast : Ast) → FormsOf (trees_in trees.now) ast → MatchResult result (λ forms. ast_of forms ≡ ast) IsNoMemory }
    ensures first { IfErr result (λ fault. IsNoMemory fault ⊎ ((bytes : List ℕ) → TreesOf bytes (trees_in trees.now) → EndsFirst (faulty_trees (trees_in trees.now)) fault)) }
{
    forms_of(alloc, trees)
}
