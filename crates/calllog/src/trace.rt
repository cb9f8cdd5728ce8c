// Where the traces of a log stand in its bytes, so that a trace is a part of the caller's slice.
ghost use Rattle.std.specs.Prelude.{◌≡◌, ◌<◌};
ghost use Rattle.calllog.specs.Layout.{traces_in};
ghost use Rattle.calllog.specs.Logs.{part_of, part_at, where_part, found_of, asked_of};

use crate::layout::Entries;
use crate::{judge, layout};
use sets::Answer;

// A part of the bytes: its first byte, and how many. It is no slice and no Option, for `part_of` (specs/Logs.antt) is what `trace_part` promises:
// where the part stands, and 0 and 0 where there is none.
#[derive(Clone, Copy)]
pub struct Part {
    pub start: usize,
    pub length: usize,
}

impl Part {
    pub const NONE: Part = Part {
        start: 0,
        length: 0,
    };
}

// A trace that was asked for: the part of the bytes that it is; 0 and 0 where refused.
#[derive(Clone, Copy)]
pub struct Found {
    pub answer: Answer,
    pub start: usize,
    pub length: usize,
}

// What a reader gives, and the number of the trace that comes next.
#[derive(Clone, Copy)]
pub struct Asked {
    pub found: Found,
    pub next: usize,
}

// T, as the head has it: in a log that the caller has judged, how many traces there are.
pub fn trace_count(bytes: &[u8]) -> usize
    ensures { result ≡ traces_in bytes.now }
{
    layout::traces(bytes) as usize
}

// Where trace k stands, in a log that the caller has judged: one step for each trace of a walk. Of bytes that have no such trace it
// gives nothing, so the part is within any bytes.
pub fn trace_part(bytes: &[u8], k: usize) -> Part
    ensures { result ≡ part_of bytes.now k }
{
    let traces = layout::traces(bytes);
    if traces as usize <= k {
        return Part::NONE;
    }
    entry_part(bytes, k as u16)
}

// Trace k itself, as a part of the caller's bytes: what every walk over a log cuts out. It is empty where there is no such trace.
pub fn trace_at(bytes: &[u8], k: usize) -> &[u8]
    ensures { result.now ≡ part_at bytes.now k }
{
    let p = trace_part(bytes, k);
    &bytes[p.start..p.start + p.length]
}

// The part of the bytes that entry k names, where they have all of it.
fn entry_part(bytes: &[u8], k: u16) -> Part
    requires { k < traces_in bytes.now }
    ensures { result ≡ where_part bytes.now k }
{
    let bodies = layout::bodies_start(bytes) as usize;
    if bytes.len() < bodies {
        return Part::NONE;
    }
    let entries = Entries { bytes };
    let start = bodies + entries.offset(k) as usize;
    let length = entries.length(k) as usize;
    if bytes.len() < start + length {
        return Part::NONE;
    }
    Part { start, length }
}

// Trace k of any bytes: the refusals of the bytes, then 11.
pub fn find_trace(bytes: &[u8], k: usize) -> Found
    ensures { result ≡ found_of bytes.now k }
{
    let judged = judge::judge_log(bytes);
    let answer = judged.answer;
    if !answer.is_done() {
        return Found {
            answer,
            start: 0,
            length: 0,
        };
    }
    if judged.traces <= k {
        return Found {
            answer: Answer::NoTrace,
            start: 0,
            length: 0,
        };
    }
    let p = trace_part(bytes, k);
    Found {
        answer: Answer::Done,
        start: p.start,
        length: p.length,
    }
}

// What a reader that remembers `next` gives when it is asked for trace k, and what it remembers then.
pub fn ask(bytes: &[u8], next: usize, k: usize) -> Asked
    ensures { result ≡ asked_of bytes.now next k }
{
    let found = find_trace(bytes, k);
    let answer = found.answer;
    if answer.is_done() {
        return Asked { found, next: k + 1 };
    }
    Asked { found, next }
}
