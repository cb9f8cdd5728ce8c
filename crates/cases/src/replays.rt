// Cases of replay: a graph file, and traces. Of a file that is refused the graph is empty, and every step gets 8.
use crate::{files, text};
use engine::{Graph, Replayed};
use std::env::Env;
use std::io;

// Where a replay ended.
fn say_replayed(rt: &impl Print, r: Replayed) -> io::Result<()> {
    let answer = r.answer;
    text::blocked(rt, ": ", answer)?;
    print!(rt; " place {}", r.place.0)?;
    text::marking(rt, r.marking)?;
    text::yes_or_no(rt, " accepting", r.accepting)?;
    println!(rt)
}

// All bytes of a file as one trace.
pub fn replay_whole<'a>(rt: &impl Print, file: &'a [u8], trace: &'a [u8]) -> io::Result<()> {
    let r = graphfile::read(file);
    let g = r.graph;
    say_replayed(rt, engine::replay::replay(g, trace))
}

// A part of the bytes as a trace.
fn replay_part(
    rt: &impl Print,
    g: Graph,
    bytes: &[u8],
    start: usize,
    length: usize,
) -> io::Result<()> {
    let Some(rest) = bytes.get(start..) else {
        return Ok(());
    };
    let Some(trace) = rest.get(..length) else {
        return Ok(());
    };
    say_replayed(rt, engine::replay::replay(g, trace))
}

// Trace k of a log.
fn replay_trace(rt: &(impl Env + Print), g: Graph, log: &[u8], k: usize, i: u32) -> io::Result<()> {
    if 0 < k {
        files::say_words(rt, i)?;
    }
    print!(rt; " trace {k}")?;
    let found = calllog::trace::find_trace(log, k);
    replay_part(rt, g, log, found.start, found.length)
}

// Each trace of a log, a line for each.
pub fn replay_all<'a>(
    rt: &(impl Env + Print),
    file: &'a [u8],
    log: &'a [u8],
    i: u32,
) -> io::Result<()> {
    let judged = calllog::judge::judge_log(log);
    let traces = judged.traces;
    for k in 0..traces {
        let r = graphfile::read(file);
        replay_trace(rt, r.graph, log, k, i)?;
    }
    Ok(())
}
