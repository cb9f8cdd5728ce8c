// Enabled, the step and accepting (01, "A step"). What a caller does often it does on lent relations, with `ask` and `next`.
// The events and the relations are two parameters and no struct: .ci/statements.py holds a public function to all that it is lent, and reads
// no reference inside a struct.
ghost use Rattle.std.specs.Prelude.{◌≡◌};
ghost use Rattle.sets.specs.Tests.{◌and◌, ◌or◌, non};
ghost use Rattle.sets.specs.Members.{mem, those};
ghost use Rattle.engine.specs.Relations.{graph_of, in_tables};
ghost use Rattle.engine.specs.Steps as rules;
ghost use Rattle.engine.specs.Replay.{enabled_of, enabled_on, stepped_by, stepped_of, stepped_on, accepting_of};
ghost use Rattle.sets.specs.Answers.{then_ask};

use crate::graph::{CONDITIONS, EXCLUDES, Graph, Head, INCLUDES, RESPONSES, Relations};
use crate::marking::{Marking, State};
use crate::{enabled, judge};
use sets::{Activity, Answer, Set, tables};

// What a step gives: its answer, and the marking after it; the same marking where it is refused.
#[derive(Clone, Copy)]
pub struct Stepped {
    pub answer: Answer,
    pub marking: Marking,
}

// Whether a marking is accepting; no where it is refused.
#[derive(Clone, Copy)]
pub struct Verdict {
    pub answer: Answer,
    pub accepting: bool,
}

// The condition sources that are included and not executed.
pub(crate) fn blocking(relations: &Relations, s: State, a: Activity) -> Set
    ensures { result ≡ those (rules.blocking (in_tables relations.now) s a.0) }
{
    let sources = tables::row(relations, CONDITIONS, a);
    let live = sources.intersection(s.included);
    live.difference(s.executed)
}

// Rules 8, 9, 10. The set that decides 10 has the blocker as its least member.
pub fn ask(events: Set, relations: &Relations, s: State, a: Activity) -> Answer
    ensures { result ≡ rules.enabled events (in_tables relations.now) s a.0 }
{
    if !events.has(a) {
        return Answer::NoEvent;
    }
    if !s.included.has(a) {
        return Answer::NotIncluded;
    }
    let sources = blocking(relations, s, a);
    if !sources.is_empty() {
        return Answer::Waiting(sources.least());
    }
    Answer::Done
}

// What is left of a set that loses some members, then gains others.
fn changed(s: Set, lost: Set, gained: Set) -> Set
    ensures { result ≡ those (λ a. mem s a and non (mem lost a) or mem gained a) }
{
    s.difference(lost).union(gained)
}

// The state after a step that is enabled.
pub fn next(relations: &Relations, s: State, a: Activity) -> State
    ensures { result ≡ rules.after (in_tables relations.now) s a.0 }
{
    let one = Set::one(a);
    let executed = s.executed.union(one);
    let pending = changed(s.pending, one, tables::row(relations, RESPONSES, a));
    let lost = tables::row(relations, EXCLUDES, a);
    let included = changed(s.included, lost, tables::row(relations, INCLUDES, a));
    State::of(executed, pending, included)
}

// Whether no step is both pending and included.
pub fn is_accepting(s: State) -> bool
    ensures { result ≡ rules.accepting s }
{
    s.pending.intersection(s.included).is_empty()
}

// Rules 8, 9, 10 where what was judged before them is done.
fn ask_after(judged: Answer, events: Set, relations: &Relations, s: State, a: Activity) -> Answer
    ensures { result ≡ then_ask judged (rules.enabled events (in_tables relations.now) s a.0) }
{
    if !judged.is_done() {
        return judged;
    }
    ask(events, relations, s, a)
}

// A graph, with a marking beside it: 3, 5 and 16, then 8, 9, 10.
pub fn ask_judged(head: Head, relations: &Relations, m: Marking, a: Activity) -> Answer
    ensures { result ≡ enabled_of (graph_of head relations.now) m a.0 }
{
    let judged = judge::judge_beside(head, relations, m);
    ask_after(judged, head.events, relations, m.state, a)
}

// A marking on a graph that was judged before: 5 and 16, then 8, 9, 10.
pub fn ask_on(events: Set, relations: &Relations, m: Marking, a: Activity) -> Answer
    ensures { result ≡ enabled_on events (in_tables relations.now) m a.0 }
{
    let judged = judge::judge_marking(events, relations, m);
    ask_after(judged, events, relations, m.state, a)
}

// Whether a step is enabled on any graph at any marking: the refusals of both, then rules 8, 9, 10.
pub fn enabled(g: Graph, m: Marking, a: Activity) -> Answer
    ensures { result ≡ enabled_of g m a.0 }
{
    let head = g.head;
    ask_judged(head, &g.relations, m, a)
}

// What a step gives that is answered so.
fn taken(answer: Answer, events: Set, relations: &Relations, m: Marking, a: Activity) -> Stepped
    ensures { result ≡ stepped_by answer events (in_tables relations.now) m a.0 }
{
    if !answer.is_done() {
        return Stepped { answer, marking: m };
    }
    let state = next(relations, m.state, a);
    let marking = enabled::marked(events, relations, state);
    Stepped { answer, marking }
}

// The step on any graph at any marking. `enabled(g, m, a)` would copy the relations, which are used again.
pub fn step(g: Graph, m: Marking, a: Activity) -> Stepped
    ensures { result ≡ stepped_of g m a.0 }
{
    let head = g.head;
    let answer = ask_judged(head, &g.relations, m, a);
    taken(answer, head.events, &g.relations, m, a)
}

// The step at any marking on a graph that was judged before, as one from a file is.
pub fn step_on(events: Set, relations: &Relations, m: Marking, a: Activity) -> Stepped
    ensures { result ≡ stepped_on events (in_tables relations.now) m a.0 }
{
    let answer = ask_on(events, relations, m, a);
    taken(answer, events, relations, m, a)
}

// Whether a marking is accepting, on any graph.
pub fn accepting(g: Graph, m: Marking) -> Verdict
    ensures { result ≡ accepting_of g m }
{
    let head = g.head;
    let answer = judge::judge_beside(head, &g.relations, m);
    if !answer.is_done() {
        return Verdict {
            answer,
            accepting: false,
        };
    }
    Verdict {
        answer,
        accepting: is_accepting(m.state),
    }
}
