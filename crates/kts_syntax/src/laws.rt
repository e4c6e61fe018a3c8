ghost use Rattle.std.specs.Prelude.{◌≡◌, ◌≤◌, ◌↔◌, ℕ, List as ListOf, [], Ok, Err, true};
ghost use Rattle.kts_syntax.specs.Faulty.{EndsFirst, faulty_trees};
ghost use Rattle.kts_syntax.specs.Faults.{FormFault as FaultOf};
ghost use Rattle.kts_text.specs.Forest.{Forest, nest};
ghost use Rattle.kts_text.specs.Grammar.{TreesOf};
ghost use Rattle.kts_syntax.specs.Fitting.{ast_fits};
ghost use Rattle.kts_syntax.specs.Places.{aside};
ghost use Rattle.kts_syntax.specs.RoundTrip.{ReadsBack};
ghost use Rattle.kts_syntax.specs.Shown.{ast_of};
ghost use Rattle.kts_syntax.specs.Sizes.{forms_nest};
ghost use Rattle.kts_syntax.specs.Texts.{forms_text};
ghost use Rattle.kts_syntax.specs.Tops.{Ast, forms_of};
ghost use Rattle.kts_syntax.specs.FormExamples.{Refused, IsOnly, index_without_a_name, index_of_two_names, manifest_of_a_reserved_word, two_manifests, both_manifests, number_after_a_zero, quantifier_without_a_formula};
ghost use Rattle.kts_syntax.specs.FormsOf.{FormsOf};
ghost use Rattle.kts_syntax.specs.declared.forms.Forms.{Forms};

use kts_text::grammar_law;

/// Trees are read as an ast exactly where they are the trees of that ast.
pub fn forms_law()
    ensures { (trees : Forest) (ast : Ast) → (forms_of trees ≡ Ok ast) ↔ FormsOf trees ast }
{}

/// Forms that are read may be written, and nest no deeper than their trees.
pub fn reading_law()
    ensures fit { (trees : Forest) (read : Ast) → forms_of trees ≡ Ok read → ast_fits read ≡ true }
    ensures shallow { (trees : Forest) (read : Ast) → forms_of trees ≡ Ok read → forms_nest read.forms ≤ nest trees }
{}

/// What `print` writes reads back to the same forms, places aside, and no other forms have that text.
pub fn round_trip_law()
    ensures back { (forms : Forms) → ReadsBack (ast_of forms) }
    ensures only { (a b : Forms) → forms_text (ast_of a) ≡ forms_text (ast_of b) → aside (ast_of a) ≡ aside (ast_of b) }
{
    grammar_law();
}

/// Trees are read where no tree is at fault; else the fault is that of the tree at fault that ends first.
pub fn form_fault_law()
    ensures value { (bytes : ListOf ℕ) (trees : Forest) → TreesOf bytes trees → (((read : Ast) × (forms_of trees ≡ Ok read)) ↔ (faulty_trees trees ≡ [])) }
    ensures fault { (bytes : ListOf ℕ) (trees : Forest) (f : FaultOf) → TreesOf bytes trees → ((forms_of trees ≡ Err f) ↔ EndsFirst (faulty_trees trees) f) }
{}

/// Trees that are no forms by the rules, and trees whose only ast is told.
pub fn form_examples()
    ensures nameless { Refused index_without_a_name }
    ensures two_names { Refused index_of_two_names }
    ensures reserved { Refused manifest_of_a_reserved_word }
    ensures manifests { IsOnly two_manifests both_manifests }
    ensures zero { Refused number_after_a_zero }
    ensures quantifier { Refused quantifier_without_a_formula }
{}
