// Cases of graph files: read, written again, written into a buffer of a certain size, mined; and of graphs that no file can hold.
use crate::{files, moves, text};
use engine::graph::KINDS;
use engine::{Graph, Head, Relations};
use octets::edition;
use octets::set::set_at;
use rules::Profile;
use sets::rows::WORDS;
use sets::{Activity, tables};
use std::env::Env;
use std::io;
use std::rt::Files;

// Room for the greatest graph file: 84 bytes, and 17 for each of 128 rows in 4 relations.
const ROOM: usize = 8788;

// The eight numbers, of two bytes each, from a place on.
fn say_eight(rt: &impl Print, bytes: &[u8; ROOM], from: u8) -> io::Result<()> {
    for i in 0..8 {
        let at = from as usize + 2 * i;
        print!(rt; " {}", u16::from_le_bytes([bytes[at], bytes[at + 1]]))?;
    }
    Ok(())
}

// The contents: offset and number of rows, four times, as they stand in the file, after four sets of 8 bytes, or of 16 in edition 2.
fn say_contents(rt: &impl Print, bytes: &[u8; ROOM]) -> io::Result<()> {
    print!(rt; " contents")?;
    if bytes[2] == edition::WIDE {
        return say_eight(rt, bytes, 68);
    }
    say_eight(rt, bytes, 36)
}

// Whether the first bytes of a buffer are the file, and no more than that.
fn is_file(out: &[u8], length: usize, file: &[u8]) -> bool {
    out.get(..length).is_some_and(|first| first == file)
}

// The graph's file, and whether it is the file at hand.
fn say_written(rt: &impl Print, g: Graph, file: &[u8]) -> io::Result<()> {
    let mut out = [0u8; ROOM];
    let w = graphfile::write(g, &mut out);
    let answer = w.answer;
    text::answer(rt, "; written: ", answer)?;
    print!(rt; " length {}", w.length)?;
    say_contents(rt, &out)?;
    text::yes_or_no(rt, " same", is_file(&out, w.length, file))
}

// A, the events, and what is enabled at the opening marking.
fn say_head(rt: &impl Print, head: Head) -> io::Result<()> {
    print!(rt; " A {}", head.activities)?;
    text::members(rt, " events", head.events)?;
    text::members(rt, " enabled", head.opening.enabled)
}

pub fn rewrite(rt: &impl Print, file: &[u8]) -> io::Result<()> {
    let r = graphfile::read(file);
    let answer = r.answer;
    let g = r.graph;
    text::answer(rt, ": ", answer)?;
    say_head(rt, g.head)?;
    if answer.is_done() {
        say_written(rt, g, file)?;
    }
    println!(rt)
}

// The graph of a log, and whether its file is the one expected.
pub fn mine<'a>(rt: &impl Print, log: &'a [u8], file: &'a [u8]) -> io::Result<()> {
    let m = miner::mine(log, Profile::Full);
    let answer = m.answer;
    let g = m.graph;
    text::answer(rt, ": ", answer)?;
    say_head(rt, g.head)?;
    if answer.is_done() {
        say_written(rt, g, file)?;
    }
    println!(rt)
}

// Writes a graph into a buffer that held other bytes before.
fn write_into<'a>(
    rt: &impl Print,
    g: Graph,
    file: &'a [u8],
    before: &'a [u8],
    out: &mut [u8],
) -> io::Result<()> {
    let w = graphfile::write(g, out);
    let answer = w.answer;
    let length = w.length;
    text::answer(rt, ": ", answer)?;
    print!(rt; " length {length}")?;
    text::yes_or_no(rt, " file", is_file(out, length, file))?;
    text::yes_or_no(rt, " rest as it was", is_rest(out, length, before))?;
    println!(rt)
}

// Whether two buffers are the same from a place on.
fn is_rest(out: &[u8], from: usize, before: &[u8]) -> bool {
    match (out.get(from..), before.get(from..)) {
        (Some(rest), Some(old)) => rest == old,
        _ => false,
    }
}

// The buffer lent holds the second file's bytes.
pub fn lend(rt: &(impl Env + Files + Print), file: &[u8], i: u32) -> io::Result<()> {
    let mut before = [0u8; ROOM];
    let mut out = [0u8; ROOM];
    let n = files::load(rt, i as usize + 2, &mut before);
    let k = files::load(rt, i as usize + 2, &mut out);
    let r = graphfile::read(file);
    write_into(rt, r.graph, file, &before[..n], &mut out[..k])
}

// A value's bytes: how large a buffer is lent to its write; A; relation, key and set of its row; events; opening marking. Its sets have
// 16 bytes whatever A is, so that they can have what A does not allow.
const VALUE: usize = 100;

// A graph put together by hand: nothing judges it, so it may be one that no file can hold. It has one row, in the relation of that number.
fn value_of(bytes: &[u8]) -> Graph {
    if bytes.len() < VALUE {
        return Graph::empty();
    }
    let head = Head {
        activities: bytes[1],
        events: set_at(bytes, 20, true),
        opening: graphfile::marking::read_marking(&bytes[36..], true),
    };
    let mut relations: Relations = [0; KINDS as usize * WORDS];
    let row = set_at(bytes, 4, true);
    tables::put(&mut relations, bytes[2], Activity(bytes[3]), row);
    Graph { head, relations }
}

// Writes a graph into the first bytes of a buffer.
fn write_first<'a>(
    rt: &impl Print,
    g: Graph,
    file: &'a [u8],
    before: &'a [u8],
    out: &mut [u8],
    first: u8,
) -> io::Result<()> {
    let size = first as usize;
    match (before.get(..size), out.get_mut(..size)) {
        (Some(before), Some(out)) => write_into(rt, g, file, before, out),
        _ => Ok(()),
    }
}

// The value at its opening marking, with the key of its row as the activity; then its write, and whether that is the file at hand.
pub fn value<'a>(rt: &impl Print, file: &'a [u8], bytes: &'a [u8]) -> io::Result<()> {
    if bytes.len() == VALUE {
        let before = [170u8; 256];
        let mut out = [170u8; 256];
        let g = value_of(bytes);
        let head = g.head;
        moves::say_step(rt, g, head.opening, Activity(bytes[3]))?;
        print!(rt; "; written")?;
        write_first(rt, g, file, &before, &mut out, bytes[0])?;
    }
    Ok(())
}
