// Enabled, the step and accepting (01, "A step"), each rule as a walk through a list of pairs.
ghost use Rattle.std.specs.Prelude.{◌≡◌, MatchOption, false, true, eqb, ltb};
ghost use Rattle.sets.specs.Tests.{◌and◌, ◌or◌, non, when◌then◌else◌};
ghost use Rattle.sets.specs.Members.{width, mem, those, least_below};
ghost use Rattle.engine.specs.Steps as rules;
ghost use Rattle.plain.specs.Pairs.{pair_of, source_of, target_of, in_pairs, blocks};
ghost use Rattle.plain.specs.Graphs.{plain_held, plain_relations};
ghost use Rattle.plain.specs.Results.{plain_enabled_of, plain_stepped_of, plain_accepting_of};

use crate::graph::Graph;
use crate::pairs::{source, target};
use crate::{enabled, judge};
use engine::step::is_accepting;
use engine::{Marking, State, Stepped, Verdict};
use sets::{Activity, Answer, Set};

// Whether a condition keeps the activity waiting: it leads to it, and its source is included and not executed.
pub(crate) fn is_blocking(pair: u16, s: State, a: Activity) -> bool
    ensures { result ≡ blocks s a.0 pair }
{
    if target(pair).0 != a.0 {
        return false;
    }
    if !s.included.has(source(pair)) {
        return false;
    }
    !s.executed.has(source(pair))
}

// The smaller of an activity and the pair's source, where the pair is blocking; else the activity.
fn smaller(least: Activity, pair: u16, s: State, a: Activity) -> Activity
    ensures { result.0 ≡ when blocks s a.0 pair and ltb (source_of pair) least.0 then source_of pair else least.0 }
{
    if !is_blocking(pair, s, a) {
        return least;
    }
    let found = source(pair);
    if found.0 < least.0 {
        return found;
    }
    least
}

// The smallest source that keeps the activity waiting. The walk begins with a number above every activity's, and ends with it where
// no condition is blocking.
fn blocker(g: &Graph<'_>, s: State, a: Activity) -> Option<Activity>
    ensures { MatchOption result (false ≡ rules.waits (plain_relations (plain_held g.now)) s a.0)
        (λ b. (true ≡ rules.waits (plain_relations (plain_held g.now)) s a.0)
        × (b.0 ≡ least_below width (rules.blocking (plain_relations (plain_held g.now)) s a.0))) }
{
    let mut least = Activity(Activity::LIMIT);
    for &pair in g.conditions {
        least = smaller(least, pair, s, a);
    }
    if least.0 < Activity::LIMIT {
        Some(least)
    } else {
        None
    }
}

// Rules 8, 9, 10.
pub(crate) fn ask(g: &Graph<'_>, s: State, a: Activity) -> Answer
    ensures { result ≡ rules.enabled g.now.head.events (plain_relations (plain_held g.now)) s a.0 }
{
    if !g.head.events.has(a) {
        return Answer::NoEvent;
    }
    if !s.included.has(a) {
        return Answer::NotIncluded;
    }
    match blocker(g, s, a) {
        Some(least) => Answer::Waiting(least),
        None => Answer::Done,
    }
}

// The set, with the pair's target where its source is the activity.
fn gain_target(s: Set, pair: u16, a: Activity) -> Set
    ensures { result ≡ those (λ b. mem s b or eqb pair (pair_of a.0 b)) }
{
    if source(pair).0 != a.0 {
        return s;
    }
    s.union(Set::one(target(pair)))
}

// The set, with every target of the activity.
fn gain_targets(s: Set, pairs: &[u16], a: Activity) -> Set
    ensures { result ≡ those (λ b. mem s b or in_pairs pairs.now a.0 b) }
{
    let mut kept = s;
    for &pair in pairs {
        kept = gain_target(kept, pair, a);
    }
    kept
}

// The set, without the pair's target where its source is the activity.
fn lose_target(s: Set, pair: u16, a: Activity) -> Set
    ensures { result ≡ those (λ b. mem s b and non (eqb pair (pair_of a.0 b))) }
{
    if source(pair).0 != a.0 {
        return s;
    }
    s.difference(Set::one(target(pair)))
}

// The set, without any target of the activity.
fn lose_targets(s: Set, pairs: &[u16], a: Activity) -> Set
    ensures { result ≡ those (λ b. mem s b and non (in_pairs pairs.now a.0 b)) }
{
    let mut kept = s;
    for &pair in pairs {
        kept = lose_target(kept, pair, a);
    }
    kept
}

// The state after a step that is enabled. Included loses before it gains, so an include wins.
pub(crate) fn next(g: &Graph<'_>, s: State, a: Activity) -> State
    ensures { result ≡ rules.after (plain_relations (plain_held g.now)) s a.0 }
{
    let one = Set::one(a);
    let executed = s.executed.union(one);
    let done = s.pending.difference(one);
    let pending = gain_targets(done, g.responses, a);
    let left = lose_targets(s.included, g.excludes, a);
    let included = gain_targets(left, g.includes, a);
    State::of(executed, pending, included)
}

// Whether a step is enabled on any graph at any marking: the refusals of both, then rules 8, 9, 10.
pub fn enabled(g: &Graph<'_>, m: Marking, a: Activity) -> Answer
    ensures { result ≡ plain_enabled_of (plain_held g.now) m a.0 }
{
    let answer = judge::judge_beside(g, m);
    if !answer.is_done() {
        return answer;
    }
    ask(g, m.state, a)
}

// The step on any graph at any marking: the marking after it, or the same where refused.
pub fn step(g: &Graph<'_>, m: Marking, a: Activity) -> Stepped
    ensures { result ≡ plain_stepped_of (plain_held g.now) m a.0 }
{
    let answer = enabled(g, m, a);
    if !answer.is_done() {
        return Stepped { answer, marking: m };
    }
    let state = next(g, m.state, a);
    let marking = enabled::marked(g.head.events, g.conditions, state);
    Stepped { answer, marking }
}

// Whether a marking is accepting, on any graph; no where refused.
pub fn accepting(g: &Graph<'_>, m: Marking) -> Verdict
    ensures { result ≡ plain_accepting_of (plain_held g.now) m }
{
    let answer = judge::judge_beside(g, m);
    if !answer.is_done() {
        return Verdict {
            answer,
            accepting: false,
        };
    }
    Verdict {
        answer,
        accepting: is_accepting(m.state),
    }
}
