// The plain engine's functions (02, 1/12). The head of a graph comes as bytes, A, events, executed, pending, included, enabled: 41, or
// 81 where A is above 64 (02, 10/12); its relations as four lists of pairs.
ghost use Rattle.std.specs.Prelude.{◌≡◌};
ghost use Rattle.port.specs.Port.{step_number};
ghost use Rattle.plain.specs.Graphs.{plain_held};
ghost use Rattle.port.specs.Classroom.{graph_handed, judged_handed, plain_step_of, plain_step_bytes, plain_accepting_number};
ghost use Rattle.port.specs.Classroom.{plain_replay_number, fill_number, fill_memory};

use crate::{lent, packed, packed_blocker, packed_verdict, store};
use engine::{Marking, Stepped};
use plain::Graph;
use sets::{Activity, Answer};

// A graph as C hands it over, part by part.
#[derive(Clone, Copy)]
struct Handed<'a> {
    head: &'a [u8],
    conditions: &'a [u16],
    responses: &'a [u16],
    includes: &'a [u16],
    excludes: &'a [u16],
}

impl<'a> Handed<'a> {
    // The graph that its bytes and lists hold.
    fn graph(&self) -> Graph<'a>
        ensures { plain_held result ≡ graph_handed self.now }
    {
        Graph {
            head: graphfile::head::read_head(self.head),
            conditions: self.conditions,
            responses: self.responses,
            includes: self.includes,
            excludes: self.excludes,
        }
    }

    // Whether there is a graph, and a marking beside it: without one the graph is judged by itself, with one they are judged together.
    fn judge(&self, marking: &[u8]) -> Answer
        ensures { result ≡ judged_handed self.now.head.now self.now.conditions.now self.now.responses.now
            self.now.includes.now self.now.excludes.now marking.now }
    {
        if self.head.len() < lent::head_room(self.head) {
            return Answer::BufferTooSmall;
        }
        if lent::room_beside_head(self.head) <= marking.len() {
            return Answer::Done;
        }
        let answer = plain::judge::judge_for(&self.graph(), 0);
        if !answer.is_done() {
            return answer;
        }
        Answer::BufferTooSmall
    }

    // A step: these refusals, then the step's.
    fn step(&self, marking: &[u8], a: Activity) -> Stepped
        ensures { result ≡ plain_step_of self.now.head.now self.now.conditions.now self.now.responses.now
            self.now.includes.now self.now.excludes.now marking.now a.0 }
    {
        let answer = self.judge(marking);
        if !answer.is_done() {
            return Stepped {
                answer,
                marking: Marking::EMPTY,
            };
        }
        let m = lent::marking_beside_head(self.head, marking);
        plain::step::step(&self.graph(), m, a)
    }
}

// One step at a marking of 32 or 64 lent bytes; they stay as they were where it is refused.
pub fn skelfora_plain_step<'a, 'm>(
    head: &'a [u8],
    conditions: &'a [u16],
    responses: &'a [u16],
    includes: &'a [u16],
    excludes: &'a [u16],
    marking: &'m mut [u8],
    activity: u8,
) -> u64
    ensures value { result ≡ step_number (plain_step_of head.now conditions.now responses.now
        includes.now excludes.now marking.old activity) }
    ensures marking_after { marking.new ≡ plain_step_bytes head.now conditions.now responses.now
        includes.now excludes.now marking.old activity }
{
    let g = Handed {
        head,
        conditions,
        responses,
        includes,
        excludes,
    };
    let s = g.step(marking, Activity(activity));
    store(s, marking, lent::is_wide_head(head))
}

// Whether a marking of 32 or 64 bytes is accepting: the number, and 2^32 where it is.
pub fn skelfora_plain_accepting<'a>(
    head: &'a [u8],
    conditions: &'a [u16],
    responses: &'a [u16],
    includes: &'a [u16],
    excludes: &'a [u16],
    marking: &'a [u8],
) -> u64
    ensures { result ≡ plain_accepting_number head.now conditions.now responses.now
        includes.now excludes.now marking.now }
{
    let g = Handed {
        head,
        conditions,
        responses,
        includes,
        excludes,
    };
    let refusal = g.judge(marking);
    if !refusal.is_done() {
        return packed(refusal, 0);
    }
    let m = lent::marking_beside_head(head, marking);
    let v = plain::step::accepting(&g.graph(), m);
    let a = v.answer;
    packed_verdict(a, 0, v.accepting)
}

// Replays a trace from the opening marking: the number, the place, 2^32 where it ends accepting, and the blocker.
pub fn skelfora_plain_replay<'a>(
    head: &'a [u8],
    conditions: &'a [u16],
    responses: &'a [u16],
    includes: &'a [u16],
    excludes: &'a [u16],
    trace: &'a [u8],
) -> u64
    ensures { result ≡ plain_replay_number head.now conditions.now responses.now
        includes.now excludes.now trace.now }
{
    if head.len() < lent::head_room(head) {
        return packed_blocker(Answer::BufferTooSmall, 0, false);
    }
    let g = Handed {
        head,
        conditions,
        responses,
        includes,
        excludes,
    };
    let p = plain::replay::replay(&g.graph(), trace);
    let a = p.answer;
    let place = p.place.0;
    packed_blocker(a, place, p.accepting)
}

// A relation of a graph file, by its number in 01's order, as pairs in lent memory: the number, and how many there are.
pub fn skelfora_fill(file: &[u8], kind: u8, memory: &mut [u16]) -> u64
    ensures value { result ≡ fill_number file.now kind memory.old }
    ensures memory_after { memory.new ≡ fill_memory file.now kind memory.old }
{
    let r = graphfile::read(file);
    let answer = r.answer;
    if !answer.is_done() {
        return packed(answer, 0);
    }
    let f = plain::fill::fill(&r.graph.relations, kind, memory);
    let a = f.answer;
    packed(a, f.pairs)
}
