// The engine to read in class, run: mistake 2's graph of docs/CLASSROOM.md in lists of pairs, one line a case. What each line must say was
// worked out by hand from 01 and 02 (crates/class/stdout).
#![tactic(auto)]

mod text;

use engine::graph::{CONDITIONS, KINDS};
use engine::{Head, Marking, Relations, State};
use plain::Graph;
use plain::enabled::marked;
use plain::fill::fill;
use plain::replay::replay;
use plain::step::step;
use sets::rows::WORDS;
use sets::{Activity, Set, tables};
use std::io;

// The condition 1 to 2, and the exclusion 0 to 1.
const SURVEY_ASSIGN: u16 = 258;

const WAIVE_SURVEY: u16 = 1;

// A second condition, 0 to 2.
const WAIVE_ASSIGN: u16 = 2;

// 0 Waive, 1 Survey, 2 Assign, with this opening marking, these conditions and excludes, and no other arrow.
fn opening_at<'a>(opening: Marking, conditions: &'a [u16], excludes: &'a [u16]) -> Graph<'a> {
    let events = Set::below(3);
    Graph {
        head: Head {
            activities: 3,
            events,
            opening,
        },
        conditions,
        responses: &[],
        includes: &[],
        excludes,
    }
}

// The same from the opening marking that these conditions have: all included, and what is enabled then.
fn graph<'a>(conditions: &'a [u16], excludes: &'a [u16]) -> Graph<'a> {
    let events = Set::below(3);
    let opening = marked(events, conditions, State::opening(events));
    opening_at(opening, conditions, excludes)
}

// A replay.
fn show(rt: &impl Print, name: &str, g: &Graph<'_>, trace: &[u8]) -> io::Result<()> {
    let r = replay(g, trace);
    print!(rt; "{name}")?;
    text::answer(rt, r.answer)?;
    print!(rt; " at {}", r.place.0)?;
    text::marking(rt, r.marking)?;
    if r.accepting {
        print!(rt; " accepting")?;
    }
    println!(rt)
}

// The rows of mistake 2, and a step that the graph lacks.
fn the_rows(rt: &impl Print, g: &Graph<'_>) -> io::Result<()> {
    show(rt, "2", g, b"\x02")?;
    show(rt, "1 2", g, b"\x01\x02")?;
    show(rt, "0", g, b"\x00")?;
    show(rt, "0 2", g, b"\x00\x02")?;
    show(rt, "0 1", g, b"\x00\x01")?;
    show(rt, "255", g, b"\xff")
}

// One step of Waive, at a marking handed beside.
fn a_step(rt: &impl Print, name: &str, g: &Graph<'_>, m: Marking) -> io::Result<()> {
    let s = step(g, m, Activity(0));
    print!(rt; "{name}")?;
    text::answer(rt, s.answer)?;
    text::marking(rt, s.marking)?;
    println!(rt)
}

// The opening marking, but with these included and with this set of enabled activities.
fn handed(included: Set, enabled: Set) -> Marking {
    Marking {
        state: State::opening(included),
        enabled,
    }
}

// The steps at markings handed beside: true; outside the events; with a set that has too much, too little, what is no event; and outside
// with a false set.
fn the_steps(rt: &impl Print, g: &Graph<'_>) -> io::Result<()> {
    let all = Set::below(3);
    let both = Set::below(2);
    let far = both.union(Set::one(Activity(3)));
    let outside = Set::below(4);
    a_step(rt, "step 0", g, handed(all, both))?;
    a_step(rt, "step 0 at a marking outside", g, handed(outside, both))?;
    a_step(rt, "step 0 with 2 enabled", g, handed(all, all))?;
    a_step(
        rt,
        "step 0 with 1 not enabled",
        g,
        handed(all, Set::below(1)),
    )?;
    a_step(rt, "step 0 with 3 enabled", g, handed(all, far))?;
    a_step(rt, "step 0 outside, 2 enabled", g, handed(outside, all))
}

// The graph's own opening marking with a false set: alone, with a pair outside the events, with a list too long.
fn the_openings<'a>(rt: &impl Print, c: &'a [u16], x: &'a [u16]) -> io::Result<()> {
    let m = handed(Set::below(3), Set::below(3));
    show(rt, "opens with 2 enabled, 0", &opening_at(m, c, x), b"\x00")?;
    let far = opening_at(m, &[65535], x);
    show(rt, "opens so, and 65535, 0", &far, b"\x00")?;
    let many = [SURVEY_ASSIGN; 16385];
    let long = opening_at(m, &many, x);
    show(rt, "opens so, and 16385 times, 0", &long, b"\x00")
}

// The conditions of the graph on sets, into lent memory.
fn a_fill(rt: &impl Print, name: &str, memory: &mut [u16]) -> io::Result<()> {
    let mut relations: Relations = [0; KINDS as usize * WORDS];
    tables::put(
        &mut relations,
        CONDITIONS,
        Activity(2),
        Set::one(Activity(1)),
    );
    let f = fill(&relations, CONDITIONS, memory);
    print!(rt; "{name}")?;
    text::answer(rt, f.answer)?;
    print!(rt; " pairs {}", f.pairs)?;
    if let Some(first) = memory.first() {
        print!(rt; " first {first}")?;
    }
    println!(rt)
}

// Lists that are long, or name what is no step.
fn the_borders(rt: &impl Print, excludes: &[u16]) -> io::Result<()> {
    let many = [SURVEY_ASSIGN; 16385];
    let most = graph(&many[..16384], excludes);
    show(rt, "16384 times, 2", &most, b"\x02")?;
    show(rt, "16385 times, 2", &graph(&many, excludes), b"\x02")?;
    let far = [65535u16; 16385];
    show(rt, "65535, 0", &graph(&far[..1], excludes), b"\x00")?;
    let long = graph(&far, excludes);
    show(rt, "65535, 16385 times, 0", &long, b"\x00")?;
    show(rt, "3 to 2, 0", &graph(&[770], excludes), b"\x00")
}

fn main(rt: HostRuntime) -> io::Result<()> {
    let c = [SURVEY_ASSIGN];
    let x = [WAIVE_SURVEY];
    let g = graph(&c, &x);
    the_rows(&rt, &g)?;
    let twice = [WAIVE_SURVEY, WAIVE_SURVEY];
    show(&rt, "listed twice, 0 2", &graph(&c, &twice), b"\x00\x02")?;
    let conditions = [SURVEY_ASSIGN, WAIVE_ASSIGN];
    let both = graph(&conditions, &x);
    show(&rt, "1 and 0 to 2, 2", &both, b"\x02")?;
    show(&rt, "1 and 0 to 2, 1 2", &both, b"\x01\x02")?;
    show(&rt, "1 and 0 to 2, 0 2", &both, b"\x00\x02")?;
    the_borders(&rt, &x)?;
    the_steps(&rt, &g)?;
    the_openings(&rt, &c, &x)?;
    let mut memory = [7u16; 2];
    // No room at all: what stands in the memory stays.
    a_fill(&rt, "fill 0", &mut memory[..0])?;
    a_fill(&rt, "fill 2", &mut memory)
}
