ghost use Rattle.std.specs.Prelude.{◌≡◌, map, string_bytes, option_map};
ghost use Rattle.kts_top.specs.Commands.{audit_of, command_named, command_of, one_file, run_of, sample_of, solve_of, solve_with};
ghost use Rattle.kts_top.specs.Shown.{plain_command};

use crate::options::{Options, read_options};
use crate::word::{is_file_word, is_word};
use kts_base::{MAX_SAMPLE, read_numeral};

/// A command, with its file words and options.
#[derive(Drop)]
pub enum Command<'a> {
    Check {
        spec: &'a str,
    },
    Classify {
        spec: &'a str,
    },
    Generate {
        spec: &'a str,
    },
    Run {
        code: &'a str,
        data: &'a str,
        options: Options,
    },
    SolveData {
        spec: &'a str,
        data: &'a str,
        options: Options,
    },
    Solve {
        spec: &'a str,
        options: Options,
    },
    Audit {
        spec: &'a str,
        data: &'a str,
        plan: &'a str,
    },
    Sample {
        size: u64,
    },
}

/// The command of these words; none where they are no command. It takes no memory.
pub fn read_command(words: &[String]) -> Option<Command<'_>>
    ensures { option_map plain_command result ≡ command_of (map string_bytes words.now) }
{
    match words {
        [] => None,
        [word, words @ ..] => command_named(word.as_str(), words),
    }
}

fn command_named<'a>(word: &str, words: &'a [String]) -> Option<Command<'a>>
    ensures { option_map plain_command result ≡ command_named word.now (map string_bytes words.now) }
{
    if is_word(word, "check") {
        let spec = one_file(words)?;
        return Some(Command::Check { spec });
    }
    if is_word(word, "classify") {
        let spec = one_file(words)?;
        return Some(Command::Classify { spec });
    }
    if is_word(word, "generate") {
        let spec = one_file(words)?;
        return Some(Command::Generate { spec });
    }
    if is_word(word, "run") {
        return run_of(words);
    }
    if is_word(word, "solve") {
        return solve_of(words);
    }
    if is_word(word, "audit") {
        return audit_of(words);
    }
    if is_word(word, "sample") {
        return sample_of(words);
    }
    None
}

fn one_file(words: &[String]) -> Option<&str>
    ensures { option_map (λ path. path.now) result ≡ one_file (map string_bytes words.now) }
{
    match words {
        [spec] => {
            if is_file_word(spec.as_str()) {
                return Some(spec.as_str());
            }
            None
        }
        _ => None,
    }
}

fn run_of(words: &[String]) -> Option<Command<'_>>
    ensures { option_map plain_command result ≡ run_of (map string_bytes words.now) }
{
    match words {
        [code, data, rest @ ..] => {
            if is_file_word(code.as_str()) && is_file_word(data.as_str()) {
                let options = read_options(rest)?;
                return Some(Command::Run {
                    code: code.as_str(),
                    data: data.as_str(),
                    options,
                });
            }
            None
        }
        _ => None,
    }
}

fn solve_of(words: &[String]) -> Option<Command<'_>>
    ensures { option_map plain_command result ≡ solve_of (map string_bytes words.now) }
{
    match words {
        [] => None,
        [spec, rest @ ..] => {
            if is_file_word(spec.as_str()) {
                return solve_with(spec.as_str(), rest);
            }
            None
        }
    }
}

// `solve` of a specification, with the words after it.
fn solve_with<'a>(spec: &'a str, words: &'a [String]) -> Option<Command<'a>>
    ensures { option_map plain_command result ≡ solve_with spec.now (map string_bytes words.now) }
{
    match words {
        [data, rest @ ..] => {
            if is_file_word(data.as_str()) {
                let options = read_options(rest)?;
                return Some(Command::SolveData {
                    spec,
                    data: data.as_str(),
                    options,
                });
            }
            let options = read_options(words)?;
            Some(Command::Solve { spec, options })
        }
        [] => Some(Command::Solve {
            spec,
            options: Options::none(),
        }),
    }
}

fn audit_of(words: &[String]) -> Option<Command<'_>>
    ensures { option_map plain_command result ≡ audit_of (map string_bytes words.now) }
{
    match words {
        [spec, data, plan] => {
            if is_file_word(spec.as_str())
                && is_file_word(data.as_str())
                && is_file_word(plan.as_str())
            {
                return Some(Command::Audit {
                    spec: spec.as_str(),
                    data: data.as_str(),
                    plan: plan.as_str(),
                });
            }
            None
        }
        _ => None,
    }
}

fn sample_of(words: &[String]) -> Option<Command<'_>>
    ensures { option_map plain_command result ≡ sample_of (map string_bytes words.now) }
{
    match words {
        [size] => {
            let size = read_numeral(1, MAX_SAMPLE, size.as_bytes())?;
            Some(Command::Sample { size })
        }
        _ => None,
    }
}
