// The miner: from the bytes of a log to its graph. The graph's tables are lent from stage to stage, and a stage's own rows are gone when it
// returns: that is what keeps the stack small (02, 4/12).
ghost use Rattle.std.specs.Prelude.{◌≡◌, ◌*◌, ltb, length};
ghost use Rattle.sets.specs.Members.{word, those};
ghost use Rattle.sets.specs.Rows.{row_words, rows_for};
ghost use Rattle.sets.specs.Tables.{no_tables, table_at, with_table};
ghost use Rattle.engine.specs.Relations.{relation_count};
ghost use Rattle.steps.specs.Rowwise.{reduced_of};
ghost use Rattle.tally.specs.Passes.{event_in};
ghost use Rattle.tally.specs.Tallies.{tallied_for};
ghost use Rattle.miner.specs.Stages.{responses_of, eight_in, graph_found_in};
ghost use Rattle.miner.specs.Mine.{headed_of, mined_of};
ghost use Rattle.miner.specs.Walks.{traces_of};

use crate::traces::Traces;
use crate::{conditions, excludes, includes, redundant};
use engine::graph::{KINDS, RESPONSES};
use engine::{Graph, Head, Relations, State, enabled};
use rules::Profile;
use sets::activity::WORD;
use sets::rows::WORDS;
use sets::{Answer, Rows, Set, tables};
use tally::{Tally, log};

// What mining gives: the log's answer, and its graph; the empty graph where the log is refused.
#[derive(Clone, Copy)]
pub struct Mined {
    pub answer: Answer,
    pub graph: Graph,
}

// The responses of steps 2 and 8, by source.
pub fn responses_eight(events: Set, tally: &Tally) -> Rows
    ensures { result ≡ rows_for events (reduced_of (responses_of events tally.now)) }
{
    conditions::unbroken_reduced(events, tally, log::UNANSWERED)
}

fn put_responses(events: Set, tally: &Tally, out: &mut Relations)
    ensures { out.new ≡ with_table out.old 1 (rows_for events (reduced_of (responses_of events tally.now))) }
{
    let eight = responses_eight(events, tally);
    tables::put_rows(out, RESPONSES, &eight);
}

// The tables after step 8 that a tally gives, with the traces that it is of.
fn put_eight<const WIDE: bool>(
    traces: &Traces,
    events: Set,
    tally: &Tally,
    profile: Profile,
    out: &mut Relations,
)
    ensures { length out.old ≡ relation_count * row_words → out.new ≡ eight_in WIDE profile events tally.now (traces_of traces.now) }
{
    includes::put_six::<WIDE>(traces, events, tally, profile, out);
    excludes::put_six(events, tally, profile, out);
    redundant::put_seven(traces, events, tally, out);
    conditions::put_eight(events, tally, out);
    put_responses(events, tally, out);
}

// The same of a log's first traces; it gives their events, as far as the form holds them. The tally, the largest of all, is gone when it
// returns.
fn tables_eight<const WIDE: bool>(traces: &Traces, profile: Profile, out: &mut Relations) -> Set
    ensures value { result ≡ those (event_in WIDE (traces_of traces.now)) }
    ensures out_after { length out.old ≡ relation_count * row_words
        → out.new ≡ eight_in WIDE profile result (tallied_for WIDE (traces_of traces.now)) (traces_of traces.now) }
{
    let mut tally = log::empty();
    let events = log::note_traces_in(traces.log, traces.count, WIDE, &mut tally);
    put_eight::<WIDE>(traces, events, &tally, profile, out);
    events
}

// The graph of a log's first traces, its passes in a form: its head, and its relations in tables that are lent empty.
fn graph_in<const WIDE: bool>(
    traces: &Traces,
    activities: u8,
    profile: Profile,
    found: &mut Relations,
) -> Head
    requires { found.old ≡ no_tables relation_count }
    ensures value { result ≡ (graph_found_in WIDE activities (traces_of traces.now) profile).head }
    ensures found_after { found.new ≡ (graph_found_in WIDE activities (traces_of traces.now) profile).relations }
{
    let events = tables_eight::<WIDE>(traces, profile, found);
    conditions::put_nine::<WIDE>(traces, events, found);
    conditions::put_ten(events, found);
    Head {
        activities,
        events,
        opening: enabled::marked(events, found, State::opening(events)),
    }
}

// The same in the form that the activities ask for. Where all are below 64, the passes keep one word of each set.
fn graph_found(traces: &Traces, activities: u8, profile: Profile, found: &mut Relations) -> Head
    requires { found.old ≡ no_tables relation_count }
    ensures value { result ≡ (graph_found_in (ltb word activities) activities (traces_of traces.now) profile).head }
    ensures found_after { found.new ≡ (graph_found_in (ltb word activities) activities (traces_of traces.now) profile).relations }
{
    if WORD < activities {
        return graph_in::<true>(traces, activities, profile, found);
    }
    graph_in::<false>(traces, activities, profile, found)
}

// What mining gives beside the relations: the log's answer, and the head of its graph.
#[derive(Clone, Copy)]
pub struct Headed {
    pub answer: Answer,
    pub head: Head,
}

// Mines a log, with all ten steps or without the sixth. The relations are put into tables that the caller lends, whatever they held: by value
// they would be copied, 8 KB of stack each time (02, 4/12).
pub fn mine_into(log: &[u8], profile: Profile, relations: &mut Relations) -> Headed
    ensures value { result ≡ headed_of log.now profile }
    ensures relations_after { relations.new ≡ (mined_of log.now profile).graph.relations }
{
    *relations = [0; KINDS as usize * WORDS];
    let judged = calllog::judge::judge_log(log);
    let answer = judged.answer;
    if !answer.is_done() {
        return Headed {
            answer,
            head: Head::EMPTY,
        };
    }
    let traces = Traces {
        log,
        count: judged.traces,
    };
    let head = graph_found(&traces, judged.activities, profile, relations);
    Headed { answer, head }
}

// The same with the graph by value.
pub fn mine(log: &[u8], profile: Profile) -> Mined
    ensures { result ≡ mined_of log.now profile }
{
    let mut relations: Relations = [0; KINDS as usize * WORDS];
    let mined = mine_into(log, profile, &mut relations);
    let answer = mined.answer;
    let head = mined.head;
    Mined {
        answer,
        graph: Graph { head, relations },
    }
}
