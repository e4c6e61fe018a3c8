ghost use Rattle.std.specs.Prelude.{◌≡◌, ◌≤◌, map, string_bytes};
ghost use Rattle.kts_base.specs.Limits.{most_budget};
ghost use Rattle.kts_top.specs.Options.{first_hundred, no_options, options_after, steps_of, with_budget, with_first, with_number, with_trace};

use crate::word::is_word;
use kts_base::{DEFAULT_BUDGET, MAX_BUDGET, MAX_FIRST, read_numeral};
use std::marker::Model;

/// What `run` and `solve` are told: the steps of a run, the schedules to stop after, and whether each node is printed.
#[derive(Clone, Copy, Drop)]
pub struct Options {
    budget: Option<u64>,
    first: Option<u64>,
    trace: bool,
}

impl Model for Options {
    ghost use Rattle.std.specs.Prelude.{◌≤◌, unwrap_or};
    ghost use Rattle.kts_base.specs.Limits.{default_budget, most_budget};
    ghost use Rattle.kts_top.specs.Options.{RunOptions};

    ghost Value = { RunOptions };

    ghost view = { λ options. record { budget = options.budget; first = options.first; trace = options.trace } };

    ghost inverse = { λ told. record { budget = told.budget; first = told.first; trace = told.trace } };

    ghost invariant = { λ options. unwrap_or options.budget default_budget ≤ most_budget };
}

impl Options {
    /// Nothing.
    pub fn none() -> Self
        ensures { result ≡ no_options }
    {
        Options {
            budget: None,
            first: None,
            trace: false,
        }
    }

    /// To stop after the first hundred schedules.
    pub fn first_hundred() -> Self
        ensures { result ≡ first_hundred }
    {
        Options {
            budget: None,
            first: Some(100),
            trace: false,
        }
    }

    /// The steps of a run.
    pub fn steps(&self) -> u64
        ensures steps { result ≡ steps_of self.now }
        ensures within { result ≤ most_budget }
    {
        match self.budget {
            Some(budget) => budget,
            None => DEFAULT_BUDGET,
        }
    }

    /// The schedules to stop after, where they are told.
    pub fn first(&self) -> Option<u64>
        ensures { result ≡ self.now.first }
    {
        self.first
    }

    /// Whether each node is printed, and the longest path.
    pub fn trace(&self) -> bool
        ensures { result ≡ self.now.trace }
    {
        self.trace
    }
}

/// The options of these words; none where the words are no options, or one is told twice.
pub fn read_options(words: &[String]) -> Option<Options>
    ensures { result ≡ options_after no_options (map string_bytes words.now) }
{
    options_after(Options::none(), words)
}

// The options of these words, beside those that were told before.
fn options_after(options: Options, words: &[String]) -> Option<Options>
    ensures { result ≡ options_after options (map string_bytes words.now) }
{
    match words {
        [] => Some(options),
        [name] => {
            if is_word(name.as_str(), "--trace") {
                return with_trace(options);
            }
            None
        }
        [name, word, rest @ ..] => {
            if is_word(name.as_str(), "--trace") {
                return match with_trace(options) {
                    Some(told) => options_after(told, &words[1..]),
                    None => None,
                };
            }
            match with_number(options, name.as_str(), word.as_str()) {
                Some(told) => options_after(told, rest),
                None => None,
            }
        }
    }
}

fn with_trace(options: Options) -> Option<Options>
    ensures { result ≡ with_trace options }
{
    if options.trace {
        return None;
    }
    Some(Options {
        trace: true,
        ..options
    })
}

// With an option that is told by a number.
fn with_number(options: Options, name: &str, word: &str) -> Option<Options>
    ensures { result ≡ with_number options name.now word.now }
{
    if is_word(name, "--budget") {
        return with_budget(options, word);
    }
    if is_word(name, "--first") {
        return with_first(options, word);
    }
    None
}

fn with_budget(options: Options, word: &str) -> Option<Options>
    ensures { result ≡ with_budget options word.now }
{
    if options.budget.is_some() {
        return None;
    }
    match read_numeral(0, MAX_BUDGET, word.as_bytes()) {
        Some(budget) => Some(Options {
            budget: Some(budget),
            ..options
        }),
        None => None,
    }
}

fn with_first(options: Options, word: &str) -> Option<Options>
    ensures { result ≡ with_first options word.now }
{
    if options.first.is_some() {
        return None;
    }
    match read_numeral(1, MAX_FIRST, word.as_bytes()) {
        Some(first) => Some(Options {
            first: Some(first),
            ..options
        }),
        None => None,
    }
}
