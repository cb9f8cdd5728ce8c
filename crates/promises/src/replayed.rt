// Demand 3 on the code: a log is mined in either profile, and its own traces are replayed on the graph.
ghost use Rattle.std.specs.Prelude.{◌≡◌, true};
ghost use Rattle.sets.specs.declared.answer.Answer.TheVariants.{Done};
ghost use Rattle.engine.specs.Replay.{ending};
ghost use Rattle.miner.specs.Mine.{mined_of};
ghost use Rattle.promises.specs.Promised.{OwnReplayed};

use calllog::trace::find_trace;
use engine::replay::replay;
use engine::{Marking, Replayed};
use miner::mine;
use rules::Profile;
use sets::Place;

// Trace k of a log, replayed on the graph that is mined of that log. It is refused only where the log is, or where it has no trace k: no
// event of its own is ever refused, the replay gets to the trace's length, no step is left pending, and the marking is accepting.
pub fn replay_own(log: &[u8], profile: Profile, k: usize) -> Replayed
    ensures { OwnReplayed log.now profile k result }
{
    let mined = mine(log, profile);
    let graph = mined.graph;
    let found = find_trace(log, k);
    let answer = found.answer;
    if !answer.is_done() {
        return Replayed {
            answer,
            place: Place::FIRST,
            marking: Marking::EMPTY,
            accepting: false,
        };
    }
    let start = found.start;
    let end = start + found.length;
    replay(graph, &log[start..end])
}

// The empty trace, replayed on the graph that is mined of any bytes.
pub fn replay_none(log: &[u8], profile: Profile) -> Replayed
    ensures { result ≡ ending Done 0 (mined_of log.now profile).graph.head.opening true }
{
    let mined = mine(log, profile);
    let graph = mined.graph;
    replay(graph, &log[0..0])
}
