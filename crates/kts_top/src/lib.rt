//! The top call: words in, a status and bytes out.
//!
//! A call passes these files in this order. `word` and `options` read the words, `command` makes a command of them, and
//! `top` hands it to the function that answers it: `verdict` for `check`, `classify` for `classify`, `generation` for `generate`,
//! `code_run` for `run`, `solution` for `solve`, `audit` for `audit`, and
//! `sample` for `sample`, which makes its files by `sample_texts`. That function has its files from `loads`, and what a specification's file holds from `content`, or its
//! `content_fault`; what data and plans hold it has from kts_data. `classify` has a specification classified by kts_classify, and
//! `classification` puts the lines; `solution` generates code and has it run by `run`, as `code_run` does with code of a file; `audit` has a schedule judged by kts_mean. `refusals` and `lines` put the line of a fault and the last line. `law` has what is proved of all words and all files.
#![tactic(auto)]

mod audit;
mod classification;
mod classify;
mod code_run;
mod command;
mod content;
mod content_fault;
mod generation;
mod law;
mod lines;
mod loads;
mod options;
mod refusals;
mod run;
mod sample;
mod sample_texts;
mod solution;
mod top;
mod verdict;
mod word;

pub use law::{
    typed_files_are_audited, typed_files_are_classified, typed_files_are_solved, words_law,
};
pub use sample_texts::sample_files;
pub use top::kts_main;
