use crate::cut_sink::CutSink;
use kts_base::{List, MemFiles, MemSink, Name, NoMemory, Status};
use kts_top::kts_main;
use std::alloc::Global;

/// What the program is run on.
#[derive(Drop)]
pub struct Setting {
    pub words: Vec<String>,
    pub files: List<(Name, List<u8>)>,
    /// The loads that fail, counted from 0.
    pub loads: List<u64>,
    /// The puts that fail, counted from 0, each with how many bytes it writes before.
    pub failing: List<(u64, usize)>,
    /// After how many bytes in all a put fails, where one does so.
    pub cut: Option<usize>,
    /// How many bytes can be written in all, where that is limited.
    pub room: Option<usize>,
    /// How many calls are made before the one that counts.
    pub before: u64,
}

impl Setting {
    pub fn new(alloc: Global) -> Setting {
        Setting {
            words: Vec::new(alloc),
            files: List::new(alloc),
            loads: List::new(alloc),
            failing: List::new(alloc),
            cut: None,
            room: None,
            before: 0,
        }
    }

    /// Runs the program; where the setting doesn't say how much can be written, so many bytes can. The calls before are made with the
    /// same words, over the same files and the same sink.
    pub fn run(self, alloc: Global, most: usize) -> Result<(Status, CutSink), NoMemory> {
        let Setting {
            words,
            files,
            loads,
            failing,
            cut,
            room,
            before,
        } = self;
        let mut files = MemFiles::new(files, loads);
        let mut sink = CutSink::new(MemSink::new(alloc, room.unwrap_or(most), failing)?, cut);
        for _ in 0..before {
            let _ = kts_main(alloc, &words, &mut files, &mut sink);
        }
        let status = kts_main(alloc, &words, &mut files, &mut sink);
        Ok((status, sink))
    }
}
