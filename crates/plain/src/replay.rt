// The replay of a trace (01, "A step"), event by event.
ghost use Rattle.std.specs.Prelude.{◌≡◌};
ghost use Rattle.engine.specs.Replay.{replay_from};
ghost use Rattle.plain.specs.Graphs.{plain_held, plain_relations};
ghost use Rattle.plain.specs.Results.{plain_replay_of};

use crate::graph::Graph;
use crate::{enabled, judge, step};
use engine::step::is_accepting;
use engine::{Marking, Replayed};
use sets::{Activity, Answer, Place};

// A whole trace from the opening marking, on lists that have been judged. The set of enabled activities is worked out once, for the
// marking that is given back (02, 6/12).
fn run(g: &Graph<'_>, trace: &[u8]) -> Replayed
    ensures { result ≡ replay_from g.now.head.events (plain_relations (plain_held g.now))
        g.now.head.opening.state 0 trace.now }
{
    let mut s = g.head.opening.state;
    for (i, &e) in trace.iter().enumerate() {
        let a = Activity(e);
        let answer = step::ask(g, s, a);
        if !answer.is_done() {
            return Replayed {
                answer,
                place: Place(i),
                marking: enabled::marked(g.head.events, g.conditions, s),
                accepting: false,
            };
        }
        s = step::next(g, s, a);
    }
    Replayed {
        answer: Answer::Done,
        place: Place(trace.len()),
        marking: enabled::marked(g.head.events, g.conditions, s),
        accepting: is_accepting(s),
    }
}

// A whole trace on any graph, from its opening marking.
pub fn replay(g: &Graph<'_>, trace: &[u8]) -> Replayed
    ensures { result ≡ plain_replay_of (plain_held g.now) trace.now }
{
    let answer = judge::judge_for(g, trace.len());
    if !answer.is_done() {
        return Replayed {
            answer,
            place: Place::FIRST,
            marking: Marking::EMPTY,
            accepting: false,
        };
    }
    run(g, trace)
}
