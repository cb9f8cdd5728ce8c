// The set of enabled activities that a marking keeps (02, 6/12): worked out here alone, and a marking handed over is held to it.
ghost use Rattle.std.specs.Prelude.{◌≡◌, eqb, ltb};
ghost use Rattle.sets.specs.Tests.{◌and◌, ◌or◌, non};
ghost use Rattle.sets.specs.Members.{mem, those};
ghost use Rattle.engine.specs.Relations.{in_tables};
ghost use Rattle.engine.specs.Steps.{waits};
ghost use Rattle.engine.specs.Enabled as rules;

use crate::graph::Relations;
use crate::marking::{Marking, State};
use crate::{marking, step};
use sets::activity::WORD;
use sets::{Activity, Set};

// The set with the activity, where that waits for nothing.
fn with_free(relations: &Relations, s: State, a: Activity, out: Set) -> Set
    ensures { result ≡ those (λ b. mem out b or non (waits (in_tables relations.now) s a.0) and eqb b a.0) }
{
    let one = Set::one_if(step::blocking(relations, s, a).is_empty(), a);
    out.union(one)
}

// Of the activities below an end, those that wait for nothing. Each is asked, event or not: going from member to member costs more than the asking.
fn free(relations: &Relations, s: State, end: u8) -> Set
    ensures { result ≡ those (λ a. ltb a end and non (waits (in_tables relations.now) s a)) }
{
    let mut out = Set::EMPTY;
    for i in 0..end {
        out = with_free(relations, s, Activity(i), out);
    }
    out
}

// The events that are included and wait for nothing. Where no more than the first 64 are included, nobody past the last of them is asked,
// and what is included is cut there.
pub fn enabled_set(events: Set, relations: &Relations, s: State) -> Set
    ensures { result ≡ rules.enabled_set events (in_tables relations.now) s }
{
    let included = s.included;
    let live = events.intersection(included);
    if included.is_within(Set::below(WORD)) {
        let near = State::of(s.executed, s.pending, marking::few(included));
        let end = marking::few(live).end();
        return live.intersection(free(relations, near, end));
    }
    live.intersection(free(relations, s, Activity::LIMIT))
}

// The marking of a state.
pub fn marked(events: Set, relations: &Relations, s: State) -> Marking
    ensures { result ≡ rules.marked events (in_tables relations.now) s }
{
    Marking {
        state: s,
        enabled: enabled_set(events, relations, s),
    }
}

// Whether a marking's set is the one that the step rules give.
pub fn is_true(events: Set, relations: &Relations, m: Marking) -> bool
    ensures { result ≡ rules.is_true events (in_tables relations.now) m }
{
    m.enabled == enabled_set(events, relations, m.state)
}
