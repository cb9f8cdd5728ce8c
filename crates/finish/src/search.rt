// The way out of a half-done call: the shortest sequence of steps after which it is accepting, and of these the first by activity
// numbers (02, 8/12). The search tries one activity and asks the same question with one step fewer left.
ghost use Rattle.std.specs.Prelude.{◌≡◌};
ghost use Rattle.engine.specs.Relations.{graph_of, in_tables};
ghost use Rattle.finish.specs.Ways.{shortest_of, finish_after, finish_of, finish_on};
ghost use Rattle.finish.specs.Parts.{settlers_of, first_open, ahead_of, found_of};

use crate::settle;
use engine::{Graph, Head, Marking, Relations, State, judge, step};
use sets::{Activity, Answer, Rows, Set};

// Four steps; 255 in the places that are not used, and no Option there, since docs/PORT-OTHER.md promises four 255s of `finish`.
#[derive(Clone, Copy)]
pub struct Way {
    pub first: Activity,
    pub second: Activity,
    pub third: Activity,
    pub fourth: Activity,
}

// What a search gives: its answer, and the way out; four 255s where it is refused.
#[derive(Clone, Copy)]
pub struct Finished {
    pub answer: Answer,
    pub way: Way,
}

impl Way {
    // What stands in an unused place.
    pub const UNUSED: Activity = Activity(255);
    // How many steps a way may have.
    pub const LIMIT: u8 = 4;
    // No step.
    pub const NONE: Way = Way {
        first: Way::UNUSED,
        second: Way::UNUSED,
        third: Way::UNUSED,
        fourth: Way::UNUSED,
    };

    // A step, and then this way; the fourth step of it has no place.
    fn ahead(self, a: Activity) -> Way
        ensures { result ≡ ahead_of a.0 self }
    {
        Way {
            first: a,
            second: self.first,
            third: self.second,
            fourth: self.third,
        }
    }
}

// What every step of a search looks at: the graph, and which events settle what. It goes by value: behind a reference a search took 4 % longer.
#[derive(Clone, Copy)]
struct Search<'a> {
    events: Set,
    relations: &'a Relations,
    settlers: &'a Rows,
    ghost turned: { settlers.now ≡ settlers_of events (in_tables relations.now) },
}

impl Search<'_> {
    // The least of some activities, from a number on, that is enabled.
    fn open_from(self, live: Set, s: State, from: u8) -> Option<Activity>
        ensures { result ≡ first_open live self.entry.events (in_tables self.entry.relations.now) s from }
    {
        let rest = live.difference(Set::below(from));
        for a in rest.members() {
            if step::ask(self.events, self.relations, s, a).is_done() {
                return Some(a);
            }
        }
        None
    }

    // The first way of exactly so many steps.
    fn first_way(self, s: State, left: u8) -> Option<Way>
        ensures { result ≡ found_of self.entry.events (in_tables self.entry.relations.now) left s }
    {
        if left == 0 {
            return step::is_accepting(s).then_some(Way::NONE);
        }
        let live = settle::candidates(self.events, self.settlers, s, left);
        // Not a `for` over these: that no other step is tried only `open_from` states, which the wrong version any_included_is_tried leans on.
        let mut open = self.open_from(live, s, 0);
        while let Some(a) = open {
            if let Some(rest) = self.first_way(step::next(self.relations, s, a), left - 1) {
                return Some(rest.ahead(a));
            }
            open = self.open_from(live, s, a.0 + 1);
        }
        None
    }

    // The way with the fewest steps, from 0 up to the limit.
    fn shortest(self, s: State) -> Finished
        ensures { result ≡ shortest_of self.entry.events (in_tables self.entry.relations.now) s }
    {
        for steps in 0..=Way::LIMIT {
            if let Some(way) = self.first_way(s, steps) {
                return Finished {
                    answer: Answer::Done,
                    way,
                };
            }
        }
        Finished {
            answer: Answer::NoWayOut,
            way: Way::NONE,
        }
    }
}

// The way out where what was judged before it is done, then 17 where there is none. The search goes by the state; no step on the way needs a
// set of enabled activities (02, 6/12).
fn way_after(judged: Answer, events: Set, relations: &Relations, s: State) -> Finished
    ensures { result ≡ finish_after judged events (in_tables relations.now) s }
{
    if !judged.is_done() {
        return Finished {
            answer: judged,
            way: Way::NONE,
        };
    }
    let search = Search {
        events,
        relations,
        settlers: &settle::settlers(events, relations),
    };
    search.shortest(s)
}

// The way out on lent relations from any marking: the refusals of the graph and of the marking come first.
pub fn way_out(head: Head, relations: &Relations, m: Marking) -> Finished
    ensures { result ≡ finish_of (graph_of head relations.now) m }
{
    let judged = judge::judge_beside(head, relations, m);
    way_after(judged, head.events, relations, m.state)
}

// The same on a graph that was judged before, as one from a file is.
pub fn way_out_on(events: Set, relations: &Relations, m: Marking) -> Finished
    ensures { result ≡ finish_on events (in_tables relations.now) m }
{
    let judged = judge::judge_marking(events, relations, m);
    way_after(judged, events, relations, m.state)
}

// The same on a graph by value.
pub fn finish(g: Graph, m: Marking) -> Finished
    ensures { result ≡ finish_of g m }
{
    let head = g.head;
    way_out(head, &g.relations, m)
}
