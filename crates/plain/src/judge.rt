// When a graph of lists, a trace's length or a marking beside it is refused: every 3 before any 5 (02, 1/12), every 5 before any 16
// (02, 6/12).
ghost use Rattle.std.specs.Prelude.{◌≡◌};
ghost use Rattle.plain.specs.Pairs.{pair_within, pairs_within};
ghost use Rattle.sets.specs.Tests.{◌and◌};
ghost use Rattle.engine.specs.Judged.{state_within};
ghost use Rattle.plain.specs.Graphs.{plain_held, list_fits, lists_fit, lists_within, plain_within, plain_true};
ghost use Rattle.plain.specs.Graphs.{plain_above, plain_judged_for, plain_judged_with};

use crate::enabled::is_true;
use crate::graph::Graph;
use crate::pairs::{LIMIT, source, target};
use engine::judge::{any_above, found, head_within, state_within};
use engine::{Marking, State};
use sets::{Answer, Set};

// Whether source and target of a pair are events.
fn pair_within(events: Set, pair: u16) -> bool
    ensures { result ≡ pair_within events pair }
{
    if !events.has(source(pair)) {
        return false;
    }
    events.has(target(pair))
}

// Whether each pair of a list is within the events.
fn pairs_within(events: Set, pairs: &[u16]) -> bool
    ensures { result ≡ pairs_within events pairs.now }
{
    pairs.iter().all(|&pair| pair_within(events, pair))
}

// Whether a list is not too long.
fn fits(pairs: &[u16]) -> bool
    ensures { result ≡ list_fits pairs.now }
{
    pairs.len() <= LIMIT
}

impl Graph<'_> {
    // Whether no list is too long.
    fn lists_fit(&self) -> bool
        ensures { result ≡ lists_fit self.now.conditions.now self.now.responses.now
            self.now.includes.now self.now.excludes.now }
    {
        fits(self.conditions) && fits(self.responses) && fits(self.includes) && fits(self.excludes)
    }

    // Whether the pairs of all four are within the events.
    fn lists_within(&self) -> bool
        ensures { result ≡ lists_within self.now.head.events self.now.conditions.now
            self.now.responses.now self.now.includes.now self.now.excludes.now }
    {
        let events = self.head.events;
        pairs_within(events, self.conditions)
            && pairs_within(events, self.responses)
            && pairs_within(events, self.includes)
            && pairs_within(events, self.excludes)
    }

    // Whether the events are below A, and the opening marking and all pairs within the events.
    fn is_within(&self) -> bool
        ensures { result ≡ plain_within (plain_held self.now) }
    {
        head_within(self.head) && self.lists_within()
    }

    // The graph, and the state of a marking beside it.
    fn both_within(&self, s: State) -> bool
        ensures { result ≡ (plain_within (plain_held self.now) and state_within self.now.head.events s) }
    {
        self.is_within() && state_within(self.head.events, s)
    }

    // The graph's opening marking, and the one beside it.
    fn both_true(&self, m: Marking) -> bool
        ensures { result ≡ (plain_true (plain_held self.now) self.now.head.opening
            and plain_true (plain_held self.now) m) }
    {
        is_true(self, self.head.opening) && is_true(self, m)
    }

    // Whether A, the length of a trace or a list is above its limit.
    fn is_above(&self, length: usize) -> bool
        ensures { result ≡ plain_above (plain_held self.now) length }
    {
        any_above(self.head.activities, length) || !self.lists_fit()
    }
}

// A graph, with the length of a trace beside it. What is above its limit is not gone through.
pub fn judge_for(g: &Graph<'_>, length: usize) -> Answer
    ensures { result ≡ plain_judged_for (plain_held g.now) length }
{
    if g.is_above(length) {
        return Answer::AboveLimit;
    }
    let inside = g.is_within();
    found(false, inside, is_true(g, g.head.opening))
}

// A graph, with a marking beside it.
pub(crate) fn judge_beside(g: &Graph<'_>, m: Marking) -> Answer
    ensures { result ≡ plain_judged_with (plain_held g.now) m }
{
    if g.is_above(0) {
        return Answer::AboveLimit;
    }
    let inside = g.both_within(m.state);
    found(false, inside, g.both_true(m))
}
