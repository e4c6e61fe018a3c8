use crate::{
    Boxed, CountSink, Files, List, LoadFault, MemFiles, MemSink, Name, NoMemory, Sink, put_number,
    put_pieces, read_numeral,
};
use std::alloc::Global;
use std::test::Fail;

// The items after a push, a push, a set and a pop, and the item that was popped.
fn pushed_and_popped(alloc: Global) -> Result<(usize, u8, u8, Option<u8>), NoMemory> {
    let mut list = List::new(alloc);
    list.push(4u8)?;
    list.push(5)?;
    list.push(7)?;
    let last = list.pop();
    list.set(0, 6);
    Ok((list.len(), list.as_slice()[0], list.as_slice()[1], last))
}

fn boxed(alloc: Global) -> Result<u8, NoMemory> {
    let boxed = Boxed::new(alloc, 7u8)?;
    Ok(*boxed.get())
}

#[test]
fn a_list_holds_what_was_pushed_and_set(rt: HostRuntime) -> Result<(), Fail> {
    assert_eq!(rt; pushed_and_popped(rt.alloc())?, (2, 6, 5, Some(7)));
    assert_eq!(rt; boxed(rt.alloc())?, 7);
    Ok(())
}

#[test]
fn a_name_has_one_to_forty_bytes(rt: HostRuntime) {
    assert!(rt; Name::new(b"a-Z_0.9").is_some());
    assert!(rt; Name::new(&[b'x'; 40]).is_some());
    assert!(rt; Name::new(&[b'x'; 41]).is_none());
    assert!(rt; Name::new(b"").is_none());
    assert!(rt; Name::new(b"a b").is_none());
}

#[test]
fn a_numeral_has_no_leading_zero(rt: HostRuntime) {
    assert_eq!(rt; read_numeral(0, 20, b"0"), Some(0));
    assert_eq!(rt; read_numeral(0, 20, b"20"), Some(20));
    assert_eq!(rt; read_numeral(0, 20, b"21"), None);
    assert_eq!(rt; read_numeral(1, 20, b"0"), None);
    assert_eq!(rt; read_numeral(0, 20, b"07"), None);
    assert_eq!(rt; read_numeral(0, 20, b""), None);
}

// How a load ended: how many bytes it gave, or its fault.
fn loaded(alloc: Global, files: &mut MemFiles, path: &str) -> Result<usize, LoadFault> {
    let bytes = files.load(alloc, path, 3)?;
    Ok(bytes.len())
}

// How four loads end, of which the second fails.
fn four_loads(alloc: Global) -> Result<[Result<usize, LoadFault>; 4], NoMemory> {
    let mut entries = List::new(alloc);
    if let Some(held) = Name::new(b"held") {
        entries.push((held, List::from_slice(alloc, b"abc")?))?;
        entries.push((held, List::from_slice(alloc, b"x")?))?;
    }
    if let Some(long) = Name::new(b"long") {
        entries.push((long, List::from_slice(alloc, b"abcd")?))?;
    }
    let mut files = MemFiles::new(entries, List::from_slice(alloc, &[1])?);
    Ok([
        loaded(alloc, &mut files, "held"),
        loaded(alloc, &mut files, "held"),
        loaded(alloc, &mut files, "long"),
        loaded(alloc, &mut files, "absent"),
    ])
}

#[test]
fn loads_fail_by_their_numbers(rt: HostRuntime) -> Result<(), Fail> {
    let ends = four_loads(rt.alloc())?;
    assert_eq!(rt; ends[0], Ok(3));
    assert_eq!(rt; ends[1], Err(LoadFault::Failed));
    assert_eq!(rt; ends[2], Err(LoadFault::TooLong));
    assert_eq!(rt; ends[3], Err(LoadFault::Failed));
    Ok(())
}

// Whether three writes were whole, and what was written: the second put that isn't empty fails, and the last passes the room.
fn three_writes(alloc: Global) -> Result<([bool; 3], Vec<u8>), NoMemory> {
    let failing = List::from_slice(alloc, &[(1, 2)])?;
    let mut sink = MemSink::new(alloc, 10, failing)?;
    let whole = [
        put_pieces(&mut sink, &[b"ab", b"", b"cdef"]).is_ok(),
        put_number(&mut sink, -17).is_ok(),
        sink.put(b"12345").is_ok(),
    ];
    match Vec::from_slice(alloc, sink.written()) {
        Ok(written) => Ok((whole, written)),
        Err(_) => Err(NoMemory),
    }
}

#[test]
fn puts_fail_by_their_numbers_and_past_the_room(rt: HostRuntime) -> Result<(), Fail> {
    let (whole, written) = three_writes(rt.alloc())?;
    assert_eq!(rt; whole, [false, true, false]);
    assert_eq!(rt; written.as_slice(), b"abcd-17123".as_slice());
    Ok(())
}

// How many bytes these puts and one of a number were.
fn counted(pieces: &[&[u8]]) -> u64 {
    let mut sink = CountSink::new();
    let whole = put_pieces(&mut sink, pieces).is_ok() && put_number(&mut sink, -17).is_ok();
    if whole { sink.count() } else { 0 }
}

#[test]
fn a_count_is_of_all_pieces(rt: HostRuntime) {
    assert_eq!(rt; counted(&[b"ab", b"", b"cdef"]), 9);
}
