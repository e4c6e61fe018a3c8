ghost use Rattle.std.specs.Prelude.{◌≡◌, ℕ, List as ListOf};
ghost use Rattle.kts_code.specs.CodeTexts.{code_text};
ghost use Rattle.kts_code.specs.declared.code.Code.{Code as CodeOf};
ghost use Rattle.kts_read.specs.FirstFault.{IsFirstFault};
ghost use Rattle.kts_read.specs.declared.fault.CodeFault.{CodeFault as FaultOf};
ghost use Rattle.kts_read.specs.CodeFiles.{CodeFiles};

/// Bytes have one first fault at most, and the text of code has none.
pub fn fault_law()
    ensures one { (bytes : ListOf ℕ) (f g : FaultOf) → IsFirstFault bytes f → IsFirstFault bytes g → f ≡ g }
    ensures none { (code : CodeOf) (f : FaultOf) → IsFirstFault (code_text code) f → ⊥ }
{}

/// Each file is the text of code, or has a first line at fault.
pub fn code_files_law()
    ensures { CodeFiles }
{}
