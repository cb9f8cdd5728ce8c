// The conditions of steps 8, 9 and 10, put into the tables that are lent. Step 9 asks for a replay by the includes and excludes after
// step 7: a pass of its own over each trace, from the first place to the last, where `seen` is the set of what stands before the place.
ghost use Rattle.std.specs.Prelude.{◌≡◌, []};
ghost use Rattle.sets.specs.Tests.{◌and◌, ◌or◌, non};
ghost use Rattle.sets.specs.Members.{mem, those};
ghost use Rattle.sets.specs.Rows.{in_row, no_rows, rows_for};
ghost use Rattle.sets.specs.Tables.{table_at, with_table};
ghost use Rattle.steps.specs.Rowwise.{unbroken, reduced_of, waited};
ghost use Rattle.tally.specs.Passes.{gained_for, gains_in, forward, reaches};
ghost use Rattle.miner.specs.Facts.{before_first, missed};
ghost use Rattle.miner.specs.Stages.{conditions_of, ahead_of, missed_of};
ghost use Rattle.miner.specs.Walks.{traces_of};

use crate::includes::and_then;
use crate::traces::Traces;
use engine::Relations;
use engine::graph::{CONDITIONS, EXCLUDES, INCLUDES};
use sets::{Activity, Rows, Set, rows, tables};
use steps::{reduce, relations};
use tally::{Tally, holds, in_form, log};

// Steps 2 and 8: the pairs of events that nothing broke, by the table of what breaks the rule, reduced.
pub(crate) fn unbroken_reduced(events: Set, tally: &Tally, broken: u8) -> Rows
    ensures { result ≡ rows_for events (reduced_of (rows_for events (unbroken events (table_at tally.now broken)))) }
{
    let two = relations::unbroken(events, tally, broken);
    reduce::reduced(events, &two)
}

// The conditions of steps 2 and 8, by target.
pub fn conditions_eight(events: Set, tally: &Tally) -> Rows
    ensures { result ≡ rows_for events (reduced_of (conditions_of events tally.now)) }
{
    unbroken_reduced(events, tally, log::UNPRECEDED)
}

pub(crate) fn put_eight(events: Set, tally: &Tally, out: &mut Relations)
    ensures { out.new ≡ with_table out.old 0 (rows_for events (reduced_of (conditions_of events tally.now))) }
{
    let eight = conditions_eight(events, tally);
    tables::put_rows(out, CONDITIONS, &eight);
}

// Where e stands for the first time in its trace: all that was seen; else nothing.
fn at_first(seen: Set, e: Activity) -> Set
    ensures { result ≡ those (λ x. mem seen x and non (mem seen e.0)) }
{
    if seen.has(e) {
        return Set::EMPTY;
    }
    seen
}

// The row of e gains a set, where the form can hold e.
fn gain<const WIDE: bool>(rows: &mut Rows, e: Activity, s: Set)
    ensures { rows.new ≡ gained_for WIDE rows.old e.0 (mem s) }
{
    if holds(e, WIDE) {
        rows::join(rows, e, s);
    }
}

// What the replay waits for. Row e of `first`: what stands before the first e of some trace. Row e of `unmet`: what is included and not
// executed at some e.
#[derive(Drop)]
struct Waiting {
    first: Rows,
    unmet: Rows,
}

impl Waiting {
    fn none() -> Waiting
        ensures { result ≡ record { first = no_rows; unmet = no_rows } }
    {
        Waiting {
            first: rows::empty(),
            unmet: rows::empty(),
        }
    }

    // One place of e: what was seen before it, and what is included.
    fn note<const WIDE: bool>(&mut self, e: Activity, seen: Set, included: Set)
        ensures before { self.new.first ≡ gained_for WIDE self.old.first e.0 (λ x. reaches WIDE x and (mem seen x and non (mem seen e.0))) }
        ensures left { self.new.unmet ≡ gained_for WIDE self.old.unmet e.0 (λ x. mem included x and non (mem seen x)) }
    {
        let early = in_form(at_first(seen, e), WIDE);
        gain::<WIDE>(&mut self.first, e, early);
        let waiting = included.difference(seen);
        gain::<WIDE>(&mut self.unmet, e, waiting);
    }
}

// What is included after e, by the includes and excludes of the tables alone: e's excludes go, then its includes come, as far as the form
// holds them.
fn included_after<const WIDE: bool>(included: Set, held: &Relations, e: Activity) -> Set
    ensures { result ≡ those (λ x. mem included x and non (in_row (table_at held.now 3) e.0 x)
        or reaches WIDE x and in_row (table_at held.now 2) e.0 x) }
{
    let kept = included.difference(tables::row(held, EXCLUDES, e));
    kept.union(in_form(tables::row(held, INCLUDES, e), WIDE))
}

// Replays the trace by includes and excludes alone, with all events included at first.
fn replay_trace<'a, const WIDE: bool>(
    trace: &'a [u8],
    events: Set,
    held: &'a Relations,
    waiting: &mut Waiting,
)
    ensures before { waiting.new.first ≡ forward (gains_in WIDE before_first) waiting.old.first [] trace.now }
    ensures left { waiting.new.unmet ≡ forward
        (gains_in WIDE (missed events (table_at held.now 2) (table_at held.now 3)))
        waiting.old.unmet [] trace.now }
{
    let mut seen = Set::EMPTY;
    let mut included = in_form(events, WIDE);
    for &n in trace {
        let e = Activity(n);
        waiting.note::<WIDE>(e, seen, included);
        included = included_after::<WIDE>(included, held, e);
        seen = and_then(seen, e);
    }
}

// What step 9 asks of all traces.
fn replay_log<const WIDE: bool>(
    traces: &Traces,
    events: Set,
    held: &Relations,
    waiting: &mut Waiting,
)
    ensures first_after { waiting.new.first ≡ ahead_of WIDE waiting.old.first (traces_of traces.now) }
    ensures unmet_after { waiting.new.unmet ≡ missed_of WIDE events (table_at held.now 2) (table_at held.now 3) waiting.old.unmet
        (traces_of traces.now) }
{
    for k in 0..traces.count {
        replay_trace::<WIDE>(traces.at(k), events, held, waiting);
    }
}

// The conditions, and those that are waited for.
fn put_waited<'a>(events: Set, waiting: &'a Waiting, out: &mut Relations)
    ensures { out.new ≡ with_table out.old 0
        (rows_for events (waited events (with_table no_rows 0 (table_at out.old 0)) waiting.now.first waiting.now.unmet)) }
{
    let eight = tables::taken(out, CONDITIONS);
    let nine = relations::waited(events, &eight, &waiting.first, &waiting.unmet);
    tables::put_rows(out, CONDITIONS, &nine);
}

// Step 9, on the tables after step 8, its replay in a form.
pub(crate) fn put_nine<const WIDE: bool>(traces: &Traces, events: Set, out: &mut Relations)
    ensures { out.new ≡ with_table out.old 0
        (rows_for events (waited events (with_table no_rows 0 (table_at out.old 0))
        (ahead_of WIDE no_rows (traces_of traces.now))
        (missed_of WIDE events (table_at out.old 2) (table_at out.old 3) no_rows (traces_of traces.now)))) }
{
    let mut waiting = Waiting::none();
    replay_log::<WIDE>(traces, events, out, &mut waiting);
    put_waited(events, &waiting, out);
}

fn reduced_nine(events: Set, held: &Relations) -> Rows
    ensures { result ≡ rows_for events (reduced_of (with_table no_rows 0 (table_at held.now 0))) }
{
    let nine = tables::taken(held, CONDITIONS);
    reduce::reduced(events, &nine)
}

// Step 10, on the conditions of step 9.
pub(crate) fn put_ten(events: Set, out: &mut Relations)
    ensures { out.new ≡ with_table out.old 0
        (rows_for events (reduced_of (with_table no_rows 0 (table_at out.old 0)))) }
{
    let ten = reduced_nine(events, out);
    tables::put_rows(out, CONDITIONS, &ten);
}
