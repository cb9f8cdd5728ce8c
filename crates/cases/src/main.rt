// Runs the cases of 01 that are not proved, the borders of both files, single steps, readers and graphs put together by hand, and the
// cases of docs/CLASSROOM.md: a line for each. make.py writes the files, the arguments and the expected output.
// A case is three words: what is done, a file, and a second file or `-`.
#![tactic(auto)]

mod files;
mod graphs;
mod logs;
mod moves;
mod replays;
mod text;

use std::env::Env;
use std::io;
use std::rt::Files;

// Far more words than any list of cases has.
const MOST_WORDS: u32 = 30000;

// The cases that two files are needed for.
fn run_pair(rt: &(impl Env + Files + Print), kind: u8, first: &[u8], i: u32) -> io::Result<()> {
    let mut buf = [0u8; 40000];
    let n = files::load(rt, i as usize + 2, &mut buf);
    if n == 0 {
        return println!(rt; ": no second file");
    }
    match kind {
        b'm' => graphs::mine(rt, first, &buf[..n]),
        b'r' => replays::replay_all(rt, first, &buf[..n], i),
        b't' => replays::replay_whole(rt, first, &buf[..n]),
        b's' => moves::step(rt, first, &buf[..n]),
        b'v' => graphs::value(rt, first, &buf[..n]),
        _ => println!(rt; ": no such case"),
    }
}

// The case whose words begin at argument i.
fn run(rt: &(impl Env + Files + Print), i: u32) -> io::Result<()> {
    let kind = files::kind(rt, i as usize);
    let mut buf = [0u8; 40000];
    let n = files::load(rt, i as usize + 1, &mut buf);
    files::say_words(rt, i)?;
    if n == 0 {
        return println!(rt; ": no file");
    }
    match kind {
        b'l' => logs::judge(rt, &buf[..n]),
        b'g' => graphs::rewrite(rt, &buf[..n]),
        b'w' => graphs::lend(rt, &buf[..n], i),
        b'n' => logs::ask(rt, &buf[..n]),
        _ => run_pair(rt, kind, &buf[..n], i),
    }
}

fn main(rt: HostRuntime) -> io::Result<()> {
    for i in (1..MOST_WORDS).step_by(3) {
        if !files::is_given(&rt, i as usize) {
            return Ok(());
        }
        run(&rt, i)?;
    }
    Ok(())
}
