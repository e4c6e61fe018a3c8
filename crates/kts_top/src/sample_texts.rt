ghost use Rattle.std.specs.Prelude.{◌≡◌, ◌≤◌, ◌<◌, ◌+◌, ◌∷◌, ◌++◌, [], map, flat_map, decimal, IfOk, OnOk};
ghost use Rattle.kts_base.specs.Limits.{most_sample};
ghost use Rattle.kts_top.specs.SampleFiles.{entries_text, entry_text, part_text, sample_data, sample_parts, sample_spec, separator};

use itoa::Buffer;
use kts_base::{List, NoMemory};
use std::alloc::Global;

// What the entries of an array are, by the number of their request or trip.
#[derive(Clone, Copy)]
enum Entry {
    Request,
    Trip,
    Origin,
    Destination,
    Load,
    Release,
    Due,
    Ferry,
    Rank,
}

const SPEC: &[u8] = b"(spec ferry)
(index Req)
(index Port)
(index Ship)
(index Trip)
(given from (Req) Port)
(given to (Req) Port)
(given load (Req) (int 0 100))
(given rel (Req) (int 0 48))
(given due (Req) (int 0 48))
(given ship (Trip) Ship)
(given rank (Trip) (int 0 99))
(given dep (Trip) Port)
(given arr (Trip) Port)
(given cap (Ship) (int 0 500))
(given dur (Ship) (int 1 24))
(choose trip (Req) Trip)
(choose start (Trip) (int 0 48))
(formula ports (forall (r Req) (t Trip) (and (=> (= (trip r) t) (= (dep t) (from r))) (=> (= (trip r) t) (= (arr t) (to r))))))
(formula release (forall (r Req) (t Trip) (=> (= (trip r) t) (<= (rel r) (start t)))))
(formula arrival (forall (r Req) (t Trip) (=> (= (trip r) t) (<= (+ (start t) (dur (ship t))) (due r)))))
(formula capacity (forall (t Trip) (<= (sum (r Req) (= (trip r) t) (load r)) (cap (ship t)))))
(formula apart (forall (t Trip) (u Trip) (=> (and (= (ship t) (ship u)) (< (rank t) (rank u))) (<= (+ (start t) (dur (ship t))) (start u)))))
(manifest trip)
";

/// The specification and the data of the sample problem of this size.
pub fn sample_files(alloc: Global, size: u32) -> Result<(List<u8>, List<u8>), NoMemory>
    requires some { 1 ≤ size }
    requires few { size ≤ most_sample }
    ensures spec { IfOk result (λ files. files.0 ≡ sample_spec) }
    ensures table { IfOk result (λ files. files.1 ≡ sample_data size) }
{
    let spec = List::from_slice(alloc, SPEC)?;
    let table = sample_table(alloc, size)?;
    Ok((spec, table))
}

fn sample_table(alloc: Global, size: u32) -> Result<List<u8>, NoMemory>
    requires { size ≤ most_sample }
    ensures { IfOk result (λ table. table ≡ sample_data size) }
{
    let mut text = List::new(alloc);
    append_parts(
        &mut text,
        &[
            (b"{\"Req\":[", Entry::Request),
            (
                b"],\"Port\":[\"A\",\"B\"],\"Ship\":[\"f1\",\"f2\"],\"Trip\":[",
                Entry::Trip,
            ),
            (b"],\"from\":[", Entry::Origin),
            (b"],\"to\":[", Entry::Destination),
            (b"],\"load\":[", Entry::Load),
            (b"],\"rel\":[", Entry::Release),
            (b"],\"due\":[", Entry::Due),
            (b"],\"ship\":[", Entry::Ferry),
            (b"],\"rank\":[", Entry::Rank),
            (b"],\"dep\":[", Entry::Origin),
            (b"],\"arr\":[", Entry::Destination),
        ],
        size,
    )?;
    append(&mut text, b"],\"cap\":[60,60],\"dur\":[1,1]}")?;
    Ok(text)
}

// Appends parts of the data: what stands before the entries of an array, and the entries.
fn append_parts(text: &mut List<u8>, parts: &[(&[u8], Entry)], size: u32) -> Result<(), NoMemory>
    requires { size ≤ most_sample }
    ensures { OnOk result (text.new ≡ text.old ++ flat_map (part_text size) (map (λ part. (part.0.now, part.1)) parts.now)) }
{
    match parts {
        [] => Ok(()),
        [part, rest @ ..] => {
            append(text, part.0)?;
            append_entries(text, part.1, size)?;
            append_parts(text, rest, size)
        }
    }
}

// Appends so many entries.
fn append_entries(text: &mut List<u8>, entry: Entry, count: u32) -> Result<(), NoMemory>
    requires { count ≤ most_sample }
    ensures { OnOk result (text.new ≡ text.old ++ entries_text entry count) }
{
    for before in 0..count {
        append_next(text, entry, before)?;
    }
    Ok(())
}

// Appends the entry after so many.
fn append_next(text: &mut List<u8>, entry: Entry, before: u32) -> Result<(), NoMemory>
    requires { before < most_sample }
    ensures { OnOk result (text.new ≡ text.old ++ (separator before ++ entry_text entry (before + 1))) }
{
    if before > 0 {
        text.push(b',')?;
    }
    append_entry(text, entry, before + 1)
}

// Appends the entry of the request or trip of number k, from 1.
fn append_entry(text: &mut List<u8>, entry: Entry, k: u32) -> Result<(), NoMemory>
    requires { k ≤ most_sample }
    ensures { OnOk result (text.new ≡ text.old ++ entry_text entry k) }
{
    match entry {
        Entry::Request => append_name(text, b"\"m", k),
        Entry::Trip => append_name(text, b"\"t", k),
        Entry::Origin => append(text, b"\"A\""),
        Entry::Destination => append(text, b"\"B\""),
        Entry::Load => append_number(text, 10 * (1 + k % 3)),
        Entry::Release => append_number(text, 5 * k % 7),
        Entry::Due => append(text, b"48"),
        Entry::Ferry => append(text, if k % 2 == 1 { b"\"f1\"" } else { b"\"f2\"" }),
        Entry::Rank => append_number(text, k),
    }
}

// Appends a name that ends in a number.
fn append_name(text: &mut List<u8>, front: &[u8], k: u32) -> Result<(), NoMemory>
    ensures { OnOk result (text.new ≡ text.old ++ (front.now ++ (decimal k ++ (34 ∷ [])))) }
{
    append(text, front)?;
    append_number(text, k)?;
    text.push(b'"')
}

fn append_number(text: &mut List<u8>, n: u32) -> Result<(), NoMemory>
    ensures { OnOk result (text.new ≡ text.old ++ decimal n) }
{
    let mut buffer = Buffer::new();
    append(text, buffer.format(n).as_bytes())
}

fn append(text: &mut List<u8>, piece: &[u8]) -> Result<(), NoMemory>
    ensures { OnOk result (text.new ≡ text.old ++ piece.now) }
{
    for byte in piece {
        text.push(*byte)?;
    }
    Ok(())
}
