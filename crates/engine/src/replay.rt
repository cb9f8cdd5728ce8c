// The replay of a trace (01, "A step").
ghost use Rattle.std.specs.Prelude.{◌≡◌, ltb};
ghost use Rattle.sets.specs.Tests.{◌and◌, ◌or◌};
ghost use Rattle.sets.specs.Members.{word, those};
ghost use Rattle.engine.specs.Few.{few_in, gains_few, few_gains, gains_for, state_for};
ghost use Rattle.engine.specs.Judged.{state_within};
ghost use Rattle.engine.specs.Relations.{in_tables};
ghost use Rattle.engine.specs.Steps.{after};
ghost use Rattle.engine.specs.Replay.{walked_of, replay_from, replay_of};

use crate::graph::{Graph, Head, INCLUDES, RESPONSES, Relations};
use crate::marking::{Marking, State};
use crate::{enabled, judge, marking, step};
use sets::activity::WORD;
use sets::{Activity, Answer, Place, Set, tables};

// Where a replay ends: its answer, the place of the event refused (the length where all are done), the marking then, and
// whether it is accepting.
#[derive(Clone, Copy)]
pub struct Replayed {
    pub answer: Answer,
    pub place: Place,
    pub marking: Marking,
    pub accepting: bool,
}

// The same with the state in the marking's place: for callers that hand no marking on, since working the set of enabled activities out
// takes as long as some hundred events.
#[derive(Clone, Copy)]
pub struct Walked {
    pub answer: Answer,
    pub place: Place,
    pub state: State,
    pub accepting: bool,
}

// What a step adds to pending and included.
fn gained(relations: &Relations, a: Activity) -> Set
    ensures { result ≡ those (λ b. (in_tables relations.now).responses a.0 b or (in_tables relations.now).includes a.0 b) }
{
    let responses = tables::row(relations, RESPONSES, a);
    responses.union(tables::row(relations, INCLUDES, a))
}

// Whether what the first 64 activities add lies below 64. All rows are joined before it is asked: so the compiler takes several at once.
fn gains_few(relations: &Relations) -> bool
    ensures { result ≡ gains_few (in_tables relations.now) }
{
    let mut all = Set::EMPTY;
    for i in 0..WORD {
        all = all.union(gained(relations, Activity(i)));
    }
    all.is_within(Set::below(WORD))
}

// Whether a replay from a state stays below 64.
fn is_few(relations: &Relations, opening: State) -> bool
    ensures { result ≡ (state_within (those (λ a. ltb a word)) opening and gains_few (in_tables relations.now)) }
{
    if !judge::state_within(Set::below(WORD), opening) {
        return false;
    }
    gains_few(relations)
}

// What a form holds of a state: all, or what lies below 64.
fn held<const WIDE: bool>(s: State) -> State
    ensures { result ≡ state_for WIDE s }
{
    if WIDE {
        return s;
    }
    marking::few_in(s)
}

// A whole trace on lent relations, from a state. In the narrow form the state is cut after each step, so that the loop goes on one word
// (02, 10/12): a constant parameter, since the compiler then makes two loops.
fn walk_form<'a, const WIDE: bool>(
    events: Set,
    relations: &'a Relations,
    opening: State,
    trace: &'a [u8],
) -> Walked
    ensures { result ≡ walked_of (replay_from events (gains_for WIDE (in_tables relations.now)) (state_for WIDE opening) 0 trace.now) }
{
    let mut s = held::<WIDE>(opening);
    for (i, &event) in trace.iter().enumerate() {
        let a = Activity(event);
        let answer = step::ask(events, relations, s, a);
        if !answer.is_done() {
            return Walked {
                answer,
                place: Place(i),
                state: s,
                accepting: false,
            };
        }
        s = held::<WIDE>(step::next(relations, s, a));
    }
    Walked {
        answer: Answer::Done,
        place: Place(trace.len()),
        state: s,
        accepting: step::is_accepting(s),
    }
}

// A whole trace on lent relations, from a state: for callers that have judged the graph.
pub fn walk<'a>(events: Set, relations: &'a Relations, opening: State, trace: &'a [u8]) -> Walked
    ensures { result ≡ walked_of (replay_from events (in_tables relations.now) opening 0 trace.now) }
{
    if is_few(relations, opening) {
        return walk_form::<false>(events, relations, opening, trace);
    }
    walk_form::<true>(events, relations, opening, trace)
}

// The same in a form, for callers that know it, as a reader of a file does: of a graph with A up to 64 the narrow one leaves nothing out.
pub fn walk_in<'a>(
    events: Set,
    relations: &'a Relations,
    opening: State,
    trace: &'a [u8],
    wide: bool,
) -> Walked
    ensures { result ≡ walked_of (replay_from events (gains_for wide (in_tables relations.now)) (state_for wide opening) 0 trace.now) }
{
    if wide {
        return walk_form::<true>(events, relations, opening, trace);
    }
    walk_form::<false>(events, relations, opening, trace)
}

// The same, with the marking. Its set of enabled activities is worked out once, at the end (02, 6/12).
pub fn run<'a>(head: Head, relations: &'a Relations, trace: &'a [u8]) -> Replayed
    ensures { result ≡ replay_from head.events (in_tables relations.now) head.opening.state 0 trace.now }
{
    let opening = head.opening.state;
    let walked = walk(head.events, relations, opening, trace);
    Replayed {
        answer: walked.answer,
        place: walked.place,
        marking: enabled::marked(head.events, relations, walked.state),
        accepting: walked.accepting,
    }
}

// A whole trace on any graph, from its opening marking.
pub fn replay(g: Graph, trace: &[u8]) -> Replayed
    ensures { result ≡ replay_of g trace.now }
{
    let head = g.head;
    let answer = judge::judge_for(head, &g.relations, trace.len());
    if !answer.is_done() {
        return Replayed {
            answer,
            place: Place::FIRST,
            marking: Marking::EMPTY,
            accepting: false,
        };
    }
    run(head, &g.relations, trace)
}
