// The calls program: a log on standard input, its calls on standard output, one a line, by activity numbers. A refused log gives the
// one line that the listing gives too. Reading is left to the library `calllog`.
#![tactic(auto)]

ghost use Rattle.std.specs.Prelude.{◌≤◌, length, IfOk};

use std::io;
use std::io::Read;

// Reads until the buffer is full or the input ends, and gives how many bytes it put at the start of the buffer. The same stands in listing:
// std reads to an input's end only into memory that it allocates, and a library here can't have it, since what one lets others call leaves
// one outcome (docs/STATEMENTS.md), and a read does not. The place is kept by hand, as each read says how far it came.
fn read_full(from: &mut impl Read, buf: &mut [u8]) -> io::Result<usize>
    ensures { IfOk result (λ n. n ≤ length buf.new) }
{
    let mut done = 0;
    while done < buf.len() {
        let n = from.read(&mut buf[done..])?;
        if n == 0 {
            break;
        }
        done += n;
    }
    Ok(done)
}

// One step, with a space before it where it is not the call's first.
fn say_step(rt: &impl Print, step: u8, first: bool) -> io::Result<()> {
    if !first {
        print!(rt; " ")?;
    }
    print!(rt; "{step}")
}

// The line of a call.
fn say_steps(rt: &impl Print, steps: &[u8]) -> io::Result<()> {
    for (i, &step) in steps.iter().enumerate() {
        say_step(rt, step, i == 0)?;
    }
    println!(rt)
}

fn say_calls(rt: &impl Print, log: &[u8], traces: usize) -> io::Result<()> {
    for k in 0..traces {
        say_steps(rt, calllog::trace::trace_at(log, k))?;
    }
    Ok(())
}

// The calls of any bytes, or their refusal.
fn show(rt: &impl Print, log: &[u8]) -> io::Result<()> {
    let judged = calllog::judge::judge_log(log);
    let answer = judged.answer;
    if answer.is_done() {
        return say_calls(rt, log, judged.traces);
    }
    println!(rt; "refused {}", answer.number())
}

fn main(rt: HostRuntime) -> io::Result<()> {
    // One byte more than the longest log has, as in the listing program. An array, since the programs allocate nothing (docs/DECISIONS.md).
    let mut log = [0u8; 36871];
    let n = read_full(&mut rt.reader(), &mut log)?;
    show(&rt, &log[..n])
}
