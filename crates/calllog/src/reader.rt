// A log reader: it stays over the caller's bytes and remembers which trace comes next (01, "Log"). Its functions take it apart and leave
// the work to `trace::ask`, which whoever has the bytes and the number may call as well.
ghost use Rattle.std.specs.Prelude.{◌≡◌};
ghost use Rattle.calllog.specs.Logs.{found_of, asked_of};
ghost use Rattle.calllog.specs.Reader.{opened, reader_after};

use crate::trace;
use crate::trace::{Asked, Found};

#[derive(Clone, Copy)]
pub struct LogReader<'a> {
    pub log: &'a [u8],
    pub next: usize,
}

// A reader at the first trace. The bytes are judged when a trace is asked for.
pub fn open<'a>(log: &'a [u8]) -> LogReader<'a>
    ensures { result ≡ opened log.entry }
{
    LogReader { log, next: 0 }
}

// Trace k. The reader moves on to k + 1, or stays as it was where it refuses.
pub fn trace<'s, 'a>(r: &'s mut LogReader<'a>, k: usize) -> Found
    ensures { (result ≡ found_of r.old.log.now k) × (r.new ≡ reader_after r.old k) }
{
    let asked = trace::ask(r.log, r.next, k);
    r.next = asked.next;
    asked.found
}

// The trace that the reader remembers.
pub fn next_trace<'s, 'a>(r: &'s mut LogReader<'a>) -> Found
    ensures { (result ≡ found_of r.old.log.now r.old.next) × (r.new ≡ reader_after r.old r.old.next) }
{
    let k = r.next;
    trace(r, k)
}

// Trace k by a reader that is opened for this one question, for whoever keeps no reader: its parameters are plain, so that a caller's proof is like any other.
pub fn read_trace(log: &[u8], k: usize) -> Found
    ensures { result ≡ found_of log.now k }
{
    let mut r = open(log);
    trace(&mut r, k)
}

// The trace that comes next, by a reader put together by hand with that number; and the number that it remembers then.
pub fn read_next(log: &[u8], next: usize) -> Asked
    ensures { result ≡ asked_of log.now next next }
{
    let mut r = LogReader { log, next };
    let found = next_trace(&mut r);
    Asked {
        found,
        next: r.next,
    }
}
