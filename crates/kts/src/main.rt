//! The program: it runs the words that follow its name, over the files of the disk and standard output.
//!
//! `words` takes the words, `disk_files` reads the files, and `std_sink` writes; `kts_top` has all the rest.
#![tactic(auto)]

ghost use Rattle.std.specs.Prelude.{◌≡◌, ◌≢◌};

mod disk_files;
mod std_sink;
#[cfg(test)]
mod tests;
mod words;

use disk_files::DiskFiles;
use kts_base::Status;
use kts_top::kts_main;
use std::io;
use std::io::ErrorKind;
use std::process::ExitCode;
use std_sink::StdSink;
use words::words_after_name;

fn main(rt: HostRuntime) -> ExitCode {
    let status = match words_after_name(&rt) {
        Ok(words) => {
            let mut files = DiskFiles::new(&rt);
            let mut out = StdSink::new(io::writer(&rt));
            kts_main(rt.alloc(), &words, &mut files, &mut out)
        }
        Err(error) => status_without_words(error.kind()),
    };
    ExitCode::from(status as u8)
}

// How a run ends whose words aren't text, or can't be had. It writes nothing.
fn status_without_words(error: ErrorKind) -> Status
    ensures memory { error ≡ ErrorKind.OutOfMemory → result ≡ Status.NoMemory }
    ensures other { error ≢ ErrorKind.OutOfMemory → result ≡ Status.Usage }
{
    match error {
        ErrorKind::OutOfMemory => Status::NoMemory,
        _ => Status::Usage,
    }
}
