// Text on standard output.
use engine::Marking;
use sets::{Answer, Set};
use std::io;

pub fn answer(rt: &impl Print, name: &str, a: Answer) -> io::Result<()> {
    print!(rt; "{name}{}", a.number())
}

// The number of a step or a replay, and what blocks it: 255 beside every number but 10.
pub fn blocked(rt: &impl Print, name: &str, a: Answer) -> io::Result<()> {
    print!(rt; "{name}{} by {}", a.number(), a.blocker())
}

pub fn yes_or_no(rt: &impl Print, name: &str, yes: bool) -> io::Result<()> {
    let word = if yes { "yes" } else { "no" };
    print!(rt; "{name} {word}")
}

// A set by its members, rising. The same stands in class, since no library can hold it: what one lets others call leaves one outcome
// (docs/STATEMENTS.md), and a contract can't say what is printed.
pub fn members(rt: &impl Print, name: &str, s: Set) -> io::Result<()> {
    print!(rt; "{name}")?;
    for a in s.members() {
        print!(rt; " {}", a.0)?;
    }
    Ok(())
}

pub fn marking(rt: &impl Print, m: Marking) -> io::Result<()> {
    members(rt, " executed", m.state.executed)?;
    members(rt, " pending", m.state.pending)?;
    members(rt, " included", m.state.included)?;
    members(rt, " enabled", m.enabled)
}
