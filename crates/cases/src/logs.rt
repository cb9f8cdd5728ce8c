// Cases of logs: what the judge says of the bytes, and what is found of their traces.
use crate::text;
use calllog::Found;
use std::io;

fn say_found(rt: &impl Print, found: Found) -> io::Result<()> {
    let answer = found.answer;
    text::answer(rt, ": ", answer)?;
    print!(rt; " start {}", found.start)?;
    print!(rt; " length {}", found.length)
}

// Trace k, asked of a reader.
fn find(rt: &impl Print, bytes: &[u8], k: usize) -> io::Result<()> {
    print!(rt; "; trace {k}")?;
    say_found(rt, calllog::reader::read_trace(bytes, k))
}

// The first trace, the last one, the number after it, and the greatest number there is.
fn find_some(rt: &impl Print, bytes: &[u8], traces: usize) -> io::Result<()> {
    if 0 < traces {
        find(rt, bytes, 0)?;
    }
    if 1 < traces {
        find(rt, bytes, traces - 1)?;
    }
    find(rt, bytes, traces)?;
    find(rt, bytes, usize::MAX)
}

pub fn judge(rt: &impl Print, bytes: &[u8]) -> io::Result<()> {
    let judged = calllog::judge::judge_log(bytes);
    let answer = judged.answer;
    text::answer(rt, ": ", answer)?;
    print!(rt; " A {}", judged.activities)?;
    print!(rt; " T {}", judged.traces)?;
    find_some(rt, bytes, judged.traces)?;
    println!(rt)
}

// A reader that remembers a number, asked for the trace that comes next; and what it remembers then.
fn find_next(rt: &impl Print, bytes: &[u8], next: usize) -> io::Result<()> {
    let asked = calllog::reader::read_next(bytes, next);
    print!(rt; "; next {next}")?;
    say_found(rt, asked.found)?;
    print!(rt; " then {}", asked.next)
}

// The same numbers as above: the first trace, the last one, the number after it, the greatest there is.
fn find_next_some(rt: &impl Print, bytes: &[u8], traces: usize) -> io::Result<()> {
    find_next(rt, bytes, 0)?;
    if 1 < traces {
        find_next(rt, bytes, traces - 1)?;
    }
    if 0 < traces {
        find_next(rt, bytes, traces)?;
    }
    find_next(rt, bytes, usize::MAX)
}

// The reader put together by hand. How many traces there are is the judge's to say.
pub fn ask(rt: &impl Print, bytes: &[u8]) -> io::Result<()> {
    let judged = calllog::judge::judge_log(bytes);
    print!(rt; ": T {}", judged.traces)?;
    find_next_some(rt, bytes, judged.traces)?;
    println!(rt)
}
