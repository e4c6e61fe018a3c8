ghost use Rattle.std.specs.Prelude.{ℕ, List, Option, map, string_bytes};
ghost use Rattle.kts_top.specs.Calls.{Answers, Call, Causes, Tells};
ghost use Rattle.kts_top.specs.Commands.{IsSized, command_of};
ghost use Rattle.kts_top.specs.Completeness.{SolvesWhole};
ghost use Rattle.kts_top.specs.Courses.{Course, CourseOf};
ghost use Rattle.kts_top.specs.Owed.{owed, wanted};
ghost use Rattle.kts_top.specs.Shown.{plain_command};
ghost use Rattle.kts_top.specs.TypedFiles.{whole_answer};
ghost use Rattle.kts_spec.specs.declared.instance.Instance.{Instance};
ghost use Rattle.kts_spec.specs.declared.spec.Spec.{Spec};

use crate::audit::answer_audit;
use crate::classify::answer_classify;
use crate::code_run::answer_run;
use crate::command::{Command, read_command};
use crate::generation::answer_generate;
use crate::law::typed_files_are_solved;
use crate::lines::say_usage;
use crate::sample::answer_sample;
use crate::solution::answer_solve;
use crate::verdict::answer_check;
use kts_base::{Files, Sink, Status};
use kts_data::data_law;
use kts_machine::progress_law;
use kts_search::whole_code_searches;
use std::alloc::Global;

/// Runs the command of these words over these files, and writes to this sink.
pub fn kts_main<F: Files, S: Sink>(
    alloc: Global,
    words: &[String],
    files: &mut F,
    out: &mut S,
) -> Status
    // Where files tell what they hold, the call ends as is owed for that.
    ensures owed { (held : List ℕ → Option (List ℕ)) → Tells (F.store files.old) held
        → Answers (record {
          words = map string_bytes words.now;
          status = result;
          files = F.store files.old;
          files_after = F.store files.new;
          out = S.log out.old;
          out_after = S.log out.new;
        })
        (λ _. held) (owed (map string_bytes words.now) (λ _. held)) }

    // With all that is needed for it, the call ends with the whole answer.
    ensures complete { (held : List ℕ → Option (List ℕ)) (spec : Spec) (inst : Instance) → Tells (F.store files.old) held
        → SolvesWhole (map string_bytes words.now) held spec inst
        → Answers (record {
          words = map string_bytes words.now;
          status = result;
          files = F.store files.old;
          files_after = F.store files.new;
          out = S.log out.old;
          out_after = S.log out.new;
        })
        (λ _. held) (whole_answer spec inst) }

    // Whatever files tell: what is owed, the cause of each status, and what stays.
    ensures causes { Causes (record {
      words = map string_bytes words.now;
      status = result;
      files = F.store files.old;
      files_after = F.store files.new;
      out = S.log out.old;
      out_after = S.log out.new;
    }) }
{
    typed_files_are_solved();
    whole_code_searches();
    data_law();
    progress_law();
    answer(alloc, words, files, out)
}

// Answers words: a command, or none.
fn answer<F: Files, S: Sink>(alloc: Global, words: &[String], files: &mut F, out: &mut S) -> Status
    ensures { CourseOf result (S.log out.old) (S.log out.new) (F.store files.new) (F.store files.old) (command_of (map string_bytes words.now)) }
{
    match read_command(words) {
        None => say_usage(out),
        Some(command) => answer_command(alloc, &command, files, out),
    }
}

// Hands a command to the function that answers it.
fn answer_command<F: Files, S: Sink>(
    alloc: Global,
    command: &Command<'_>,
    files: &mut F,
    out: &mut S,
) -> Status
    requires sized { IsSized (plain_command command.now) }
    ensures { Course result (S.log out.old) (S.log out.new) (F.store files.new) 1 (F.store files.old) (wanted (plain_command command.now)) }
{
    match command {
        Command::Check { spec } => answer_check(alloc, spec, files, out),
        Command::Classify { spec } => answer_classify(alloc, spec, files, out),
        Command::Solve { spec, options } => answer_solve(alloc, spec, None, *options, files, out),
        Command::SolveData {
            spec,
            data,
            options,
        } => answer_solve(alloc, spec, Some(data), *options, files, out),
        Command::Audit { spec, data, plan } => answer_audit(alloc, spec, data, plan, files, out),
        Command::Generate { spec } => answer_generate(alloc, spec, files, out),
        Command::Run {
            code,
            data,
            options,
        } => answer_run(alloc, code, data, *options, files, out),
        Command::Sample { size } => answer_sample(alloc, *size, out),
    }
}
