// A log into a tally (02, 12/12).
ghost use Rattle.std.specs.Prelude.{◌≡◌, ◌++◌, ◌≤◌, length, drop};
ghost use Rattle.tally.specs.Passes.{walked};
ghost use Rattle.months.specs.Layout.{set_count, tally_length, sets_from};
ghost use Rattle.months.specs.Tallies.{tally_of};
ghost use Rattle.months.specs.Pairs.{initial_of};
ghost use Rattle.months.specs.Months.{fill_answer, filled_of};

use crate::{layout, pairs};
use octets::set;
use sets::{Activity, Answer, Set, tables};
use tally::{Tally, log};

// Set w before any trace is asked for its pairs: the events, the rows of the tables, and else the empty set.
#[tactic(auto, using(crate::proofs::Initial::initials))]
fn initial(events: Set, tables: &Tally, w: usize) -> Set
    ensures { result ≡ initial_of events tables.now w }
{
    match w {
        layout::EVENTS => events,
        layout::FIRST_ROW..layout::ROWS_END => {
            let i = w - layout::FIRST_ROW;
            tables::row(
                tables,
                (i / layout::WIDTH) as u8,
                Activity((i % layout::WIDTH) as u8),
            )
        }
        _ => Set::EMPTY,
    }
}

// All sets, so that nothing is left of what the bytes held.
fn put_initial(events: Set, tables: &Tally, tally: &mut [u8])
    requires { tally_length ≤ length tally.old }
    ensures { tally.new ≡ sets_from set_count 0 (initial_of events tables.now) ++ drop tally_length tally.old }
{
    for w in 0..layout::SETS {
        octets::put_set(tally, set::NARROW * w, initial(events, tables, w), false);
    }
}

// The tally of a log's first traces. It holds nothing past 64, so the passes keep one word of each set.
fn put_tally(log: &[u8], activities: u8, traces: usize, tally: &mut [u8])
    requires { tally_length ≤ length tally.old }
    ensures { tally.new ≡ tally_of activities (walked log.now traces 0) ++ drop tally_length tally.old }
{
    let mut tables = log::empty();
    let events = log::note_traces_in(log, traces, false, &mut tables);
    put_initial(events, &tables, tally);
    pairs::note_log(log, traces, tally);
    tally[0] = activities;
}

// Fills the first 36,864 bytes with the tally of a log.
pub fn fill(log: &[u8], tally: &mut [u8]) -> Answer
    ensures value { result ≡ fill_answer log.now tally.old }
    ensures tally_after { tally.new ≡ filled_of log.now tally.old }
{
    let judged = calllog::judge::judge_log(log);
    let answer = judged.answer;
    if !answer.is_done() {
        return answer;
    }
    if tally.len() < layout::LENGTH {
        return Answer::BufferTooSmall;
    }
    if layout::LIMIT < judged.activities {
        return Answer::AboveLimit;
    }
    put_tally(log, judged.activities, judged.traces, tally);
    Answer::Done
}
