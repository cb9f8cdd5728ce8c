// The listing program: a log on standard input, its listing on standard output, in the profile that its one argument names, light where
// there is none (02, 3/12 and 11/12).
// All that matters is in the library `report`.
#![tactic(auto)]

ghost use Rattle.std.specs.Prelude.{◌≤◌, length, IfOk};

use report::Choice;
use rules::Profile;
use sets::Answer;
use std::env::{Env, FillError};
use std::io;
use std::io::Read;

// Reads until the buffer is full or the input ends, and gives how many bytes it put at the start of the buffer. It asks for no byte more.
// The same stands in calls, which says why.
fn read_full(from: &mut impl Read, buf: &mut [u8]) -> io::Result<usize>
    ensures { IfOk result (λ n. n ≤ length buf.new) }
{
    let mut done = 0;
    while done < buf.len() {
        let n = from.read(&mut buf[done..])?;
        if n == 0 {
            break;
        }
        done += n;
    }
    Ok(done)
}

// Writes the first n bytes. They are always there: no listing is longer than the buffer (crates/report/proofs/Longest.antt).
fn write_first(rt: &impl Print, out: &[u8], n: usize) -> io::Result<()> {
    match out.get(..n) {
        Some(first) => rt.write_all(first),
        None => Ok(()),
    }
}

// Lists a log into the bytes lent, and writes what came of it.
fn list_into(rt: &impl Print, log: &[u8], profile: Profile, out: &mut [u8]) -> io::Result<()> {
    let listed = report::write_listing(log, profile, out);
    write_first(rt, out, listed.length)
}

// Lists a log.
fn list_log(rt: &impl Print, log: &[u8], profile: Profile) -> io::Result<()> {
    // No listing is longer. Buffers are arrays here, since the programs allocate nothing (docs/DECISIONS.md).
    let mut out = [0u8; 671799];
    list_into(rt, log, profile, &mut out)
}

// Lists what is on standard input. What is there beyond the room for a log stays unread.
fn list(rt: &(impl Input + Print), profile: Profile) -> io::Result<()> {
    // One byte more than the longest log has: what is longer gets the number of these bytes (crates/calllog/proofs/Long.antt).
    let mut log = [0u8; 36871];
    let n = read_full(&mut rt.reader(), &mut log)?;
    list_log(rt, &log[..n], profile)
}

// The one line of a refusal, with nothing read.
fn refuse(rt: &impl Print, answer: Answer) -> io::Result<()> {
    // No such line is longer.
    let mut out = [0u8; 11];
    let n = report::write_refused(answer, &mut out);
    write_first(rt, &out, n)
}

// Whether there is an argument i. One that has bytes does not fit where there is no room, but it is there. The same stands in cases, which
// says why.
fn is_given(rt: &impl Env, i: usize) -> bool {
    !matches!(rt.arg(i, &mut []), Err(FillError::NotPresent))
}

// How many arguments there are beside the program's name.
fn argument_count(rt: &impl Env) -> usize {
    (1..usize::MAX).take_while(|&i| is_given(rt, i)).count()
}

fn main(rt: HostRuntime) -> io::Result<()> {
    // Longer than both words. An argument that is longer still counts as one of no bytes, and that names no profile either.
    let mut argument = [0u8; 16];
    let n = rt.arg(1, &mut argument).unwrap_or(0);
    let count = argument_count(&rt);
    let choice = report::choose(count, &argument[..n]);
    match choice {
        Choice::Listing(profile) => list(&rt, profile),
        Choice::Refused(answer) => refuse(&rt, answer),
    }
}
