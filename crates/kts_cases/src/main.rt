//! Runs `kts_main` on cases: words and files, with the status and the bytes that are wanted.
//!
//! Each word that follows the program's name is a file of cases. `blocks` splits it, `case` reads a case from its blocks, and
//! `setting` runs the program on it. `cut_sink` is what the program writes to.
#![tactic(auto)]

mod blocks;
mod case;
mod cut_sink;
mod fault;
mod setting;

use blocks::Blocks;
use case::Case;
use fault::CaseFault;
use std::process::ExitCode;
use std::rt::{Env, Files};
use std::{env, fs, io, str};

/// How many bytes more than are wanted may be written.
const SPARE: usize = 400;

/// How many bytes are shown at most of an answer that differs.
const SHOWN: usize = 200;

/// How many cases there were, and how many agree.
#[derive(Clone, Copy)]
struct Tally {
    cases: u64,
    agree: u64,
}

fn main(rt: HostRuntime) -> io::Result<ExitCode> {
    let mut code = ExitCode::SUCCESS;
    for path in env::args(&rt)?.skip(1) {
        match try_file(&rt, path.as_str()) {
            Ok(tally) => {
                println!(rt; "{path}: {} of {} agree", tally.agree, tally.cases)?;
                if tally.agree < tally.cases {
                    code = ExitCode::FAILURE;
                }
            }
            Err(fault) => {
                println!(rt; "{path}: {fault}")?;
                code = ExitCode::FAILURE;
            }
        }
    }
    Ok(code)
}

// Tries each case of a file.
fn try_file<R: Files + AllocGlobal + Print>(rt: &R, path: &str) -> Result<Tally, CaseFault> {
    let text = fs::read(rt, path)?;
    let mut blocks = Blocks::new(&text);
    let mut tally = Tally { cases: 0, agree: 0 };
    while let Some(case) = Case::read(rt.alloc(), &mut blocks)? {
        tally.cases = tally.cases.saturating_add(1);
        if try_case(rt, case)? {
            tally.agree = tally.agree.saturating_add(1);
        }
    }
    Ok(tally)
}

// Whether a case agrees; one that doesn't is printed, with the beginning of what it wrote.
fn try_case<R: AllocGlobal + Print>(rt: &R, case: Case<'_>) -> Result<bool, CaseFault> {
    let Case {
        name,
        setting,
        status,
        output,
    } = case;
    let most = output.len().saturating_add(SPARE);
    let (found, sink) = setting.run(rt.alloc(), most)?;
    let written = sink.written();
    let found = found as u64;
    if found == status && written == output {
        return Ok(true);
    }
    let shown = &written[..written.len().min(SHOWN)];
    let shown = str::from_utf8(shown).unwrap_or("no text");
    println!(rt; "{name} differs: status {found}, {shown:?}")?;
    Ok(false)
}
