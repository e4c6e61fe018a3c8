ghost use Rattle.std.specs.Prelude.{◌≡◌, ◌↔◌, ℕ, List, Some};
ghost use Rattle.kts_top.specs.Commands.{Command, command_of};
ghost use Rattle.kts_top.specs.TypedFiles.{TypedFilesAreAudited, TypedFilesAreClassified, TypedFilesAreSolved};
ghost use Rattle.kts_top.specs.Manual.{IsCommand};

use kts_check::specifications_law;
use kts_data::data_law;
use kts_machine::progress_law;
use kts_read::code_files_law;
use kts_search::{whole_code_is_there, whole_code_searches};
use kts_syntax::reading_law;
use kts_text::grammar_law;

/// A well typed file has code, or is refused by the length that its code would have. Where it has code, it owes the answer on the
/// instance that data say, which is what the run of the code that is written for it owes.
pub fn typed_files_are_solved()
    ensures { TypedFilesAreSolved }
{
    grammar_law();
    reading_law();
    specifications_law();
    whole_code_is_there();
    whole_code_searches();
    progress_law();
    data_law();
    code_files_law();
}

/// A well typed file has a specification, so its audit goes on to the data.
pub fn typed_files_are_audited()
    ensures { TypedFilesAreAudited }
{
    grammar_law();
    reading_law();
    specifications_law();
}

/// A well typed file has a specification, and owes its classification.
pub fn typed_files_are_classified()
    ensures { TypedFilesAreClassified }
{
    grammar_law();
    reading_law();
    specifications_law();
}

/// The command that is read from words is the one that the manual says, and words that are none by the manual are read as none.
pub fn words_law()
    ensures words { (words : List (List ℕ)) (command : Command) → (command_of words ≡ Some command) ↔ IsCommand command words }
{}
