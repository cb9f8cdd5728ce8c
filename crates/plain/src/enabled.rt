// The set of enabled activities that a marking keeps (02, 6/12): worked out here alone, and a marking handed over is held to it. Of the
// relations it asks the conditions, and goes through them once.
ghost use Rattle.std.specs.Prelude.{◌≡◌, []};
ghost use Rattle.sets.specs.Tests.{◌or◌};
ghost use Rattle.sets.specs.Members.{mem, those};
ghost use Rattle.engine.specs.Enabled as rules;
ghost use Rattle.plain.specs.Pairs.{some_in, blocks};
ghost use Rattle.plain.specs.Graphs.{plain_held, plain_true, in_lists};

use crate::graph::Graph;
use crate::pairs::target;
use crate::step::is_blocking;
use engine::{Marking, State};
use sets::Set;

// The set, with the pair's target where the pair keeps it waiting.
fn with_target(waiting: Set, pair: u16, s: State) -> Set
    ensures { result ≡ those (λ b. mem waiting b or blocks s b pair) }
{
    let a = target(pair);
    let one = Set::one_if(is_blocking(pair, s, a), a);
    waiting.union(one)
}

// The activities that a condition keeps waiting.
fn waiting(conditions: &[u16], s: State) -> Set
    ensures { result ≡ those (λ b. some_in conditions.now (blocks s b)) }
{
    let mut out = Set::EMPTY;
    for &pair in conditions {
        out = with_target(out, pair, s);
    }
    out
}

// The events that are included and wait for nothing.
fn enabled_set(events: Set, conditions: &[u16], s: State) -> Set
    ensures { result ≡ rules.enabled_set events (in_lists conditions.now [] [] []) s }
{
    let live = events.intersection(s.included);
    live.difference(waiting(conditions, s))
}

// The marking of a state.
pub fn marked(events: Set, conditions: &[u16], s: State) -> Marking
    ensures { result ≡ rules.marked events (in_lists conditions.now [] [] []) s }
{
    Marking {
        state: s,
        enabled: enabled_set(events, conditions, s),
    }
}

// Whether a marking's set is the one that the step rules give.
pub(crate) fn is_true(g: &Graph<'_>, m: Marking) -> bool
    ensures { result ≡ plain_true (plain_held g.now) m }
{
    m.enabled == enabled_set(g.head.events, g.conditions, m.state)
}
