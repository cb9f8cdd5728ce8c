// Cases of one step: a graph, a marking that is handed over beside it, and an activity.
use crate::text;
use engine::{Graph, Marking};
use graphfile::marking;
use octets::edition;
use octets::edition::edition_for;
use sets::Activity;
use std::io;

// Whether the marking is accepting, whether the step is enabled, and the marking that the step leaves.
pub fn say_step(rt: &impl Print, g: Graph, m: Marking, a: Activity) -> io::Result<()> {
    let verdict = engine::step::accepting(g, m);
    let judged = verdict.answer;
    text::answer(rt, ": accepting ", judged)?;
    text::yes_or_no(rt, "", verdict.accepting)?;
    let enabled = engine::step::enabled(g, m, a);
    text::blocked(rt, "; enabled ", enabled)?;
    let stepped = engine::execute::executed(g, m, a);
    let answer = stepped.answer;
    text::blocked(rt, "; step ", answer)?;
    text::marking(rt, stepped.marking)
}

// The second file has a marking, in the form that goes with the graph's A, and after it an activity. Of a graph file that is refused the
// graph is empty.
pub fn step<'a>(rt: &impl Print, file: &'a [u8], at: &'a [u8]) -> io::Result<()> {
    let r = graphfile::read(file);
    let head = r.graph.head;
    let wide = edition_for(head.activities) == edition::WIDE;
    let size = marking::length(wide);
    if size < at.len() {
        let m = marking::read_marking(at, wide);
        say_step(rt, r.graph, m, Activity(at[size]))?;
    }
    println!(rt)
}
