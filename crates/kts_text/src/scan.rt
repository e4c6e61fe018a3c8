ghost use Rattle.std.specs.Prelude.{◌≡◌, ◌⊎◌, ◌+◌, ◌-◌, ◌^◌, ◌<◌, ◌≤◌, length, drop, OnOk, IfOk, IfErr, Ok, Err};
ghost use Rattle.std.specs.List.{AllByRecursion};
ghost use Rattle.kts_base.specs.Limits.{most_nesting};
ghost use Rattle.kts_text.specs.Ends.{filled, set_end, nodes_read};
ghost use Rattle.kts_text.specs.Faults.{IsNoMemory};
ghost use Rattle.kts_text.specs.Forest.{atom_node, list_node};
ghost use Rattle.kts_text.specs.Scan.{scan, letters_in_front};

use crate::class::{Class, class_of};
use crate::fault::{TreeFault, TreeKind};
use crate::node::Node;
use crate::opened::Opened;
use kts_base::{List, MAX_ATOM_BYTES, MAX_NESTING, fail};
use std::alloc::Global;

/// Where the reader stands: in a comment, or outside comments after so many letters of an atom.
#[derive(Clone, Copy, Debug, PartialEq, Eq)]
pub enum Mode {
    Comment,
    Outside(usize),
}

/// No fewer nodes than the bytes have: one for each `(`, and one for each first letter of an atom. A comment's count as others.
fn count_nodes(bytes: &[u8]) -> usize
    ensures { result ≤ length bytes.now }
{
    let mut count = 0;
    let mut before = Class::White;
    for byte in bytes {
        let class = class_of(*byte);
        if class == Class::Open || class == Class::Letter && before != Class::Letter {
            count += 1;
        }
        before = class;
    }
    count
}

/// How many letters stand from here on.
fn letters_from(bytes: &[u8], at: usize) -> usize
    requires { at ≤ length bytes.now }
    ensures count { result ≡ letters_in_front (drop at bytes.now) }
    ensures within { at + result ≤ length bytes.now }
{
    let mut end = at;
    while end < bytes.len() {
        match class_of(bytes[end]) {
            Class::Letter => end += 1,
            _ => return end - at,
        }
    }
    end - at
}

fn atom_node(start: usize, end: usize, depth: usize) -> Node
    requires places { start ≤ end }
    requires few { end < 2 ^ 32 }
    requires shallow { depth ≤ most_nesting }
    ensures { result ≡ atom_node start end depth }
{
    Node {
        start: start as u32,
        end: end as u32,
        inside: 0,
        depth: depth as u8,
        atom: true,
    }
}

/// A list whose end is not known yet.
fn open_node(start: usize, depth: usize) -> Node
    requires few { start < 2 ^ 32 }
    requires shallow { depth ≤ most_nesting }
    ensures { result ≡ list_node start start 0 depth }
{
    Node {
        start: start as u32,
        end: start as u32,
        inside: 0,
        depth: depth as u8,
        atom: false,
    }
}

/// The end of the list with this number is found; the nodes after it are those inside.
fn end_list(nodes: &mut List<Node>, number: usize, end: usize)
    requires within { number < length nodes.old }
    requires few { length nodes.old ≤ end }
    requires small { end < 2 ^ 32 }
    ensures { nodes.new ≡ set_end nodes.old number end (length nodes.old - number - 1) }
{
    let node = nodes.as_slice()[number];
    nodes.set(
        number,
        Node {
            start: node.start,
            end: end as u32,
            inside: (nodes.len() - number - 1) as u32,
            depth: node.depth,
            atom: node.atom,
        },
    );
}

/// One byte, and where the reader stands after it.
fn step(
    nodes: &mut List<Node>,
    opened: &mut Opened,
    mode: Mode,
    bytes: &[u8],
    at: usize,
) -> Result<Mode, TreeFault>
    requires inside { at < length bytes.now }
    requires small { length bytes.now < 2 ^ 32 }
    requires few { length nodes.old ≤ at }
    requires within { AllByRecursion (λ k. k < length nodes.old) opened.old }
    ensures ok { IfOk result (λ next. filled nodes.old opened.old (scan mode (length opened.old) at (drop at bytes.now)) ≡ filled nodes.new opened.new (scan next (length opened.new) (at + 1) (drop (at + 1) bytes.now))) }
    ensures err { IfErr result (λ f. IsNoMemory f ⊎ (scan mode (length opened.old) at (drop at bytes.now) ≡ Err f)) }
    ensures few { OnOk result (length nodes.new ≤ at + 1) }
    ensures within { OnOk result (AllByRecursion (λ k. k < length nodes.new) opened.new) }
{
    let byte = bytes[at];
    let letters = match mode {
        Mode::Comment => {
            return Ok(if byte == b'\n' {
                Mode::Outside(0)
            } else {
                Mode::Comment
            });
        }
        Mode::Outside(letters) => letters,
    };
    match class_of(byte) {
        Class::White => Ok(Mode::Outside(0)),
        Class::Semicolon => Ok(Mode::Comment),
        Class::Open => {
            let depth = opened.len();
            if depth == MAX_NESTING {
                return fail(TreeKind::Deep, at);
            }
            let number = nodes.len();
            nodes.push(open_node(at, depth))?;
            opened.push(number);
            return Ok(Mode::Outside(0));
        }
        Class::Close => {
            if opened.len() == 0 {
                return fail(TreeKind::Extra, at);
            }
            let number = opened.pop();
            end_list(nodes, number, at + 1);
            return Ok(Mode::Outside(0));
        }
        Class::Letter => {
            if letters >= MAX_ATOM_BYTES {
                return fail(TreeKind::LongAtom, at);
            }
            if letters == 0 {
                let end = at + letters_from(bytes, at);
                nodes.push(atom_node(at, end, opened.len()))?;
                return Ok(Mode::Outside(1));
            }
            return Ok(Mode::Outside(letters + 1));
        }
        Class::Bad => return fail(TreeKind::BadByte, at),
    }
}

/// The nodes in order of their first bytes. A text whose places are no numbers of 32 bits isn't read.
pub fn read_nodes(alloc: Global, bytes: &[u8]) -> Result<List<Node>, TreeFault>
    ensures ok { IfOk result (λ nodes. nodes_read bytes.now ≡ Ok nodes) }
    ensures err { IfErr result (λ f. IsNoMemory f ⊎ (nodes_read bytes.now ≡ Err f)) }
{
    if bytes.len() > u32::MAX as usize {
        return fail(TreeKind::NoMemory, 0);
    }
    let mut nodes = List::with_capacity(alloc, count_nodes(bytes))?;
    let mut opened = Opened::new();
    let mut mode = Mode::Outside(0);
    for at in 0..bytes.len() {
        mode = step(&mut nodes, &mut opened, mode, bytes, at)?;
    }
    if opened.len() > 0 {
        return fail(TreeKind::Unclosed, bytes.len());
    }
    if nodes.len() == 0 {
        return fail(TreeKind::Empty, bytes.len());
    }
    Ok(nodes)
}
