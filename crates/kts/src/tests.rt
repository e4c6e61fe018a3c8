use crate::disk_files::DiskFiles;
use crate::std_sink::StdSink;
use crate::words::words_after_name;
use kts_base::{Files, LoadFault, Sink};
use std::alloc::{AllocError, Global};
use std::env::FillError;
use std::io::Write;
use std::rt::Env;
use std::test::Fail;
use std::{fs, io, rt};

// So many bytes, of which no two chunks are alike.
fn bytes_of(alloc: Global, size: usize) -> Result<Vec<u8>, AllocError> {
    let mut bytes = Vec::new(alloc);
    for i in 0..size {
        bytes.push((i % 251) as u8)?;
    }
    Ok(bytes)
}

// Whether a file of so many bytes is given whole, or its fault; and how many bytes were taken.
fn loaded<R: rt::Files + AllocGlobal>(
    rt: &R,
    size: usize,
    limit: usize,
) -> io::Result<(Result<bool, LoadFault>, u64)> {
    let path = "kts_disk_files_test";
    let bytes = bytes_of(rt.alloc(), size)?;
    fs::write(rt, path, &bytes)?;
    let mut files = DiskFiles::new(rt);
    let read = files.load(rt.alloc(), path, limit);
    fs::remove_file(rt, path)?;
    let whole = read.map(|read| read == bytes);
    Ok((whole, files.taken()))
}

#[test]
fn a_file_is_read_chunk_by_chunk_up_to_its_limit(rt: HostRuntime) -> Result<(), Fail> {
    assert_eq!(rt; loaded(&rt, 0, 0)?, (Ok(true), 0));
    assert_eq!(rt; loaded(&rt, 16_384, 16_384)?, (Ok(true), 16_384));
    assert_eq!(rt; loaded(&rt, 50_000, 50_000)?, (Ok(true), 50_000));
    assert_eq!(rt;
        loaded(&rt, 50_001, 50_000)?,
        (Err(LoadFault::TooLong), 50_001)
    );
    Ok(())
}

// Why a path can't be loaded.
fn fault_of<R: rt::Files + AllocGlobal>(rt: &R, path: &str) -> Option<LoadFault> {
    DiskFiles::new(rt).load(rt.alloc(), path, 3).err()
}

#[test]
fn a_path_without_a_file_is_a_fault(rt: HostRuntime) {
    assert_eq!(rt; fault_of(&rt, "absent"), Some(LoadFault::Failed));
    assert_eq!(rt; fault_of(&rt, "."), Some(LoadFault::Failed));
    assert_eq!(rt; fault_of(&rt, ""), Some(LoadFault::Failed));
}

// A writer that takes so many bytes at a time, and so many in all.
#[derive(Drop)]
struct Narrow<'a> {
    bytes: &'a mut Vec<u8>,
    step: usize,
    room: usize,
}

impl<'a> Write for Narrow<'a> {
    fn write(&mut self, buf: &[u8]) -> io::Result<usize> {
        let count = buf.len().min(self.step).min(self.room);
        self.bytes.extend_from_slice(&buf[..count])?;
        self.room -= count;
        Ok(count)
    }

    fn flush(&mut self) -> io::Result<()> {
        Ok(())
    }
}

// Whether all of the pieces were put, and what was written.
fn put_to(
    alloc: Global,
    step: usize,
    room: usize,
    pieces: &[&[u8]],
) -> Result<(bool, String), Fail> {
    let mut bytes = Vec::new(alloc);
    let mut sink = StdSink::new(Narrow {
        bytes: &mut bytes,
        step,
        room,
    });
    let mut whole = true;
    for piece in pieces {
        whole &= sink.put(piece).is_ok();
    }
    Ok((whole, String::from_utf8(bytes)?))
}

#[test]
fn bytes_are_held_back_until_their_line_ends(rt: HostRuntime) -> Result<(), Fail> {
    let (whole, written) = put_to(rt.alloc(), 100, 100, &[b"end "])?;
    assert!(rt; whole && written.as_str() == "");
    let (whole, written) = put_to(rt.alloc(), 100, 100, &[b"end ", b"2\n", b"x"])?;
    assert!(rt; whole && written.as_str() == "end 2\n");
    Ok(())
}

#[test]
fn a_writer_may_take_one_byte_at_a_time(rt: HostRuntime) -> Result<(), Fail> {
    let (whole, written) = put_to(rt.alloc(), 1, 100, &[b"end ", b"2\n"])?;
    assert!(rt; whole && written.as_str() == "end 2\n");
    let (whole, written) = put_to(rt.alloc(), 1, 9000, &[b"end ", &[b'x'; 5000], b"2\n"])?;
    assert!(rt; whole && written.len() == 5006);
    assert!(rt; written.starts_with("end x") && written.ends_with("x2\n"));
    Ok(())
}

#[test]
fn a_writer_that_takes_no_more_is_a_fault(rt: HostRuntime) -> Result<(), Fail> {
    let (whole, written) = put_to(rt.alloc(), 2, 5, &[b"end ", b"2\n"])?;
    assert!(rt; !whole && written.as_str() == "end 2");
    let (whole, written) = put_to(rt.alloc(), 100, 0, &[b"\n"])?;
    assert!(rt; !whole && written.as_str() == "");
    Ok(())
}

// An environment of these words alone, the program's name first.
#[derive(Clone, Copy)]
struct Given<'a>(&'a [&'a [u8]]);

impl<'a> Env for Given<'a> {
    fn arg(&self, i: usize, buf: &mut [u8]) -> Result<usize, FillError> {
        let word = self.0.get(i).ok_or(FillError::NotPresent)?;
        if word.len() > buf.len() {
            return Err(FillError::TooLong);
        }
        buf[..word.len()].copy_from_slice(word);
        Ok(word.len())
    }

    fn var(&self, _name: &str, _buf: &mut [u8]) -> Result<usize, FillError> {
        Err(FillError::NotPresent)
    }

    fn var_at(&self, _i: usize, _buf: &mut [u8]) -> Result<usize, FillError> {
        Err(FillError::NotPresent)
    }
}

// How many words follow the program's name; or why they can't be had.
fn count_of(alloc: Global, given: &[&[u8]]) -> Result<usize, io::ErrorKind> {
    match words_after_name(&(Given(given), alloc)) {
        Ok(words) => Ok(words.len()),
        Err(error) => Err(error.kind()),
    }
}

#[test]
fn the_name_of_the_program_may_be_any_bytes(rt: HostRuntime) {
    assert_eq!(rt; count_of(rt.alloc(), &[b"\xff", b"check", b"spec"]), Ok(2));
    assert_eq!(rt; count_of(rt.alloc(), &[b"kts"]), Ok(0));
    assert_eq!(rt;
        count_of(rt.alloc(), &[b"kts", b"\xff"]),
        Err(io::ErrorKind::InvalidData)
    );
}
