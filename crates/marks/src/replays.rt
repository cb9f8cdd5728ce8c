// The replays of a log's traces on one graph: the verdict on each, and all of them at once as a byte for each trace.
ghost use Rattle.std.specs.Prelude.{◌≡◌, ◌++◌, ◌≤◌, length, drop};
ghost use Rattle.sets.specs.Rows.{list_from};
ghost use Rattle.sets.specs.Answers.{then_ask};
ghost use Rattle.engine.specs.Relations.{graph_of};
ghost use Rattle.engine.specs.Judged.{judged};
ghost use Rattle.marks.specs.Marks.{is_yes};
ghost use Rattle.sets.specs.Tests.{◌and◌};
ghost use Rattle.sets.specs.Answers.{is_done};
ghost use Rattle.engine.specs.Replay.{walked_of};
ghost use Rattle.marks.specs.Replays.{replay_byte, part_replay, replays_of, replays_after};

use engine::{Head, Relations, Walked, replay};
use sets::Answer;

// The byte of a trace whose verdict is yes; of any other it is the replay's number.
const YES: u8 = 128;

// The answer, and how many bytes were written; 0 where refused.
#[derive(Clone, Copy)]
pub struct Replays {
    pub answer: Answer,
    pub traces: usize,
}

// Yes where it is done and accepting.
#[tactic(auto, using(crate::proofs::Replaying::judging_one))]
fn is_yes(r: Walked) -> bool
    ensures { result ≡ (is_done r.answer and r.accepting) }
{
    let answer = r.answer;
    if !answer.is_done() {
        return false;
    }
    r.accepting
}

// A log and the graph to replay it on. A replay asks that both were judged.
#[derive(Clone, Copy)]
pub(crate) struct Replaying<'a> {
    pub head: Head,
    pub relations: &'a Relations,
    pub log: &'a [u8],
}

impl Replaying<'_> {
    // What was answered before, then the graph's refusals.
    pub fn judge_after(&self, first: Answer) -> Answer
        ensures { result ≡ then_ask first (judged (graph_of self.now.head self.now.relations.now)) }
    {
        if !first.is_done() {
            return first;
        }
        engine::judge::judge_for(self.head, self.relations, 0)
    }

    // Where the replay of part k of the log ends.
    fn ended(&self, k: usize) -> Walked
        ensures { result ≡ walked_of (part_replay self.now.head self.now.relations.now self.now.log.now k) }
    {
        let trace = calllog::trace::trace_at(self.log, k);
        replay::walk(
            self.head.events,
            self.relations,
            self.head.opening.state,
            trace,
        )
    }

    // The verdict on part k.
    #[tactic(auto, using(crate::proofs::Replaying::judging_one))]
    pub fn verdict(&self, k: usize) -> bool
        ensures { result ≡ is_yes (part_replay self.now.head self.now.relations.now self.now.log.now k) }
    {
        let ended = self.ended(k);
        is_yes(ended)
    }

    // The byte of part k.
    #[tactic(auto, using(crate::proofs::Replaying::judging_one))]
    fn byte(&self, k: usize) -> u8
        ensures { result ≡ replay_byte (part_replay self.now.head self.now.relations.now self.now.log.now k) }
    {
        let ended = self.ended(k);
        if is_yes(ended) {
            return YES;
        }
        let answer = ended.answer;
        answer.number()
    }

    // The bytes of as many parts as there is room for.
    #[tactic(auto, using(crate::proofs::Replaying::byte_by_byte))]
    fn put(&self, out: &mut [u8])
        ensures { out.new ≡ list_from (length out.old) 0
            (λ k. replay_byte (part_replay self.now.head self.now.relations.now self.now.log.now k)) }
    {
        for (k, byte) in out.iter_mut().enumerate() {
            *byte = self.byte(k);
        }
    }
}

// Replays a log on a graph: the log's refusals, the graph's, 7 where the buffer has fewer bytes than there are traces.
#[tactic(auto, using(crate::proofs::Replaying::writing))]
pub fn write_replays<'a, 'w>(
    head: Head,
    relations: &'a Relations,
    log: &'a [u8],
    out: &'w mut [u8],
) -> Replays
    ensures value { result ≡ replays_of (graph_of head relations.now) log.now (length out.old) }
    ensures out_after { out.new ≡ replays_after (graph_of head relations.now) log.now out.old }
{
    let replaying = Replaying {
        head,
        relations,
        log,
    };
    let judged = calllog::judge::judge_log(log);
    let first = judged.answer;
    let answer = replaying.judge_after(first);
    if !answer.is_done() {
        return Replays { answer, traces: 0 };
    }
    let traces = judged.traces;
    if out.len() < traces {
        return Replays {
            answer: Answer::BufferTooSmall,
            traces: 0,
        };
    }
    replaying.put(&mut out[..traces]);
    Replays { answer, traces }
}
