// Text on standard output: the four steps that a class has at the board, by their numbers.
use engine::Marking;
use sets::{Answer, Set};
use std::io;

// The number, and beside 10 what blocks.
pub fn answer(rt: &impl Print, a: Answer) -> io::Result<()> {
    print!(rt; ": {}", a.number())?;
    if a.blocker() != Answer::NO_BLOCKER {
        print!(rt; " by {}", a.blocker())?;
    }
    Ok(())
}

// A set by its members, rising. The same stands in cases, which says why.
fn members(rt: &impl Print, name: &str, s: Set) -> io::Result<()> {
    print!(rt; " {name}")?;
    for a in s.members() {
        print!(rt; " {}", a.0)?;
    }
    Ok(())
}

pub fn marking(rt: &impl Print, m: Marking) -> io::Result<()> {
    members(rt, "executed", m.state.executed)?;
    members(rt, "pending", m.state.pending)?;
    members(rt, "included", m.state.included)?;
    members(rt, "enabled", m.enabled)
}
