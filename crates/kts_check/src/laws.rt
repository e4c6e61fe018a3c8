ghost use Rattle.std.specs.Prelude.{◌≡◌, ◌≤◌, ◌↔◌, ◌⊎◌, true, Ok, Err};
ghost use Rattle.kts_base.specs.Limits.{most_nesting};
ghost use Rattle.kts_syntax.specs.Fitting.{ast_fits};
ghost use Rattle.kts_syntax.specs.Sizes.{forms_nest};
ghost use Rattle.kts_syntax.specs.Tops.{Ast};
ghost use Rattle.kts_check.specs.Faults.{SpecFault};
ghost use Rattle.kts_check.specs.Faulty.{FirstFault};
ghost use Rattle.kts_check.specs.Forms.{Parts, parts_of};
ghost use Rattle.kts_check.specs.Specs.{IsSpecified};
ghost use Rattle.kts_check.specs.Typed.{Typed};

/// What forms say is a specification, of formulas that are no larger than they were written.
pub fn specifications_law()
    ensures { (ast : Ast) (parts : Parts) → ast_fits ast ≡ true → forms_nest ast.forms ≤ most_nesting → parts_of ast ≡ Ok parts → IsSpecified parts }
{}

/// A file that may be written says a specification exactly where it is well typed.
pub fn typing_law()
    ensures typed { (ast : Ast) (parts : Parts) → ast_fits ast ≡ true → (parts_of ast ≡ Ok parts) ↔ Typed ast parts }
{}

/// A file that may be written has a fault exactly where the rules of faults say that it is the first. So it is well typed
/// or has a first fault, and has only one.
pub fn type_fault_law()
    ensures faults { (ast : Ast) (fault : SpecFault) → ast_fits ast ≡ true → (parts_of ast ≡ Err fault) ↔ FirstFault ast fault }
    ensures either { (ast : Ast) → ast_fits ast ≡ true → ((parts : Parts) × Typed ast parts) ⊎ ((fault : SpecFault) × FirstFault ast fault) }
    ensures only { (ast : Ast) (parts : Parts) (fault other : SpecFault) → FirstFault ast fault → (FirstFault ast other → other ≡ fault) × ¬ Typed ast parts }
{}
