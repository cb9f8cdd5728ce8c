// Step 7 (02, 7/12): the exclusions that are not redundant, put into the tables that are lent. What is left of them is in `left`. It loses,
// for one event u after another, what u makes redundant. A pair whose target nothing lets in after the one and before the other is sure to
// go; where something does, the traces are asked, and only until no such pair is in doubt any more.
ghost use Rattle.std.specs.Prelude.{◌≡◌, ℕ, ◌<◌, ◌%◌, T, eqb, position};
ghost use Rattle.sets.specs.Tests.{◌and◌, non};
ghost use Rattle.sets.specs.Members.{width, mem, those, some_below, is_empty};
ghost use Rattle.sets.specs.Rows.{Relation, row_at, in_row, rows_of};
ghost use Rattle.sets.specs.Tables.{table_at, with_table};
ghost use Rattle.tally.specs.Passes.{reaches};
ghost use Rattle.tally.specs.Tallies.{before_table, later_table};
ghost use Rattle.miner.specs.Facts.{Less, reopened_in, reopened, doubted};
ghost use Rattle.miner.specs.Stages.{followers_of, redundant_by, seven_from};
ghost use Rattle.miner.specs.Walks.{traces_of};

use crate::traces::Traces;
use engine::Relations;
use engine::graph::{EXCLUDES, INCLUDES};
use sets::activity::WORD;
use sets::{Activity, Rows, Set, rows, tables};
use steps::relations;
use tally::{Tally, in_form, log};

// What is asked about a pair: the log's first traces, their tally, and the tables after step 6.
#[derive(Clone, Copy)]
struct Sources<'a> {
    traces: &'a Traces<'a>,
    tally: &'a Tally,
    held: &'a Relations,
}

// Pairs that may be redundant: from each member of the one set to each of the other.
#[derive(Clone, Copy)]
struct Pairs {
    from: Set,
    to: Set,
}

impl Pairs {
    // Whether none of them is in doubt any more. It is asked before every fourth trace only: a scan costs about as much as a trace.
    fn none_doubted(self, doubts: &Rows, k: usize) -> bool
        ensures { result ≡ (eqb (k % 4) 0 and is_empty (those (λ x. mem self.to x and some_below width (λ a. mem self.from a
            and in_row (table_at doubts.now 0) a x)))) }
    {
        if k % 4 != 0 {
            return false;
        }
        let Pairs { from, to } = self;
        let open = to.intersection(relations::union_of(doubts, 0, from));
        open.is_empty()
    }

    // Those go that are still in doubt.
    fn lose_doubted(self, doubts: &Rows, left: &mut Rows)
        ensures { Less left.old (λ a x. mem self.from a and (mem self.to x and in_row doubts.now a x)) left.new }
    {
        for a in self.from.members() {
            let gone = self.to.intersection(rows::row(doubts, a));
            rows::lose(left, a, gone);
        }
    }
}

// ---- the traces

// Where u stands for the first time in the trace.
fn first_place(trace: &[u8], u: Activity) -> Option<usize>
    ensures { result ≡ position (λ e. eqb e u.0) trace.now }
{
    trace.iter().position(|&e| e == u.0)
}

// After the first u of the trace: row e of `doubts` loses, at every e, what was let in since, as far as the form holds it. `since` is what
// that is.
fn reopen_trace<'a, const WIDE: bool>(
    trace: &'a [u8],
    u: Activity,
    held: &'a Relations,
    doubts: &mut Rows,
)
    ensures { Less doubts.old
        (λ e x. reaches WIDE x and reopened_in (table_at held.now 2) u.0 trace.now e x) doubts.new }
{
    let Some(first) = first_place(trace, u) else {
        return;
    };
    let mut since = Set::EMPTY;
    for &n in &trace[first + 1..] {
        let e = Activity(n);
        rows::lose(doubts, e, since);
        since = in_form(since.union(tables::row(held, INCLUDES, e)), WIDE);
    }
}

impl<'a> Sources<'a> {
    // The same of all traces, of the pairs that the form holds.
    fn reopen_in<const WIDE: bool>(&self, u: Activity, pairs: Pairs, doubts: &mut Rows)
        ensures { (r : Relation) → doubts.old ≡ rows_of r → (a x : ℕ) → a < width → x < width → T (mem pairs.from a and mem pairs.to x)
            → T (reaches WIDE x) → in_row doubts.new a x ≡ (r a x and non
            (reopened (table_at self.now.held.now 2) u.0 (traces_of self.now.traces.now) a x)) }
    {
        for k in 0..self.traces.count {
            if pairs.none_doubted(doubts, k) {
                return;
            }
            reopen_trace::<WIDE>(self.traces.at(k), u, self.held, doubts);
        }
    }

    // The same of all the pairs. Where all their targets lie below 64 the narrow form will do.
    fn reopen_log(&self, u: Activity, pairs: Pairs, doubts: &mut Rows)
        ensures { (r : Relation) → doubts.old ≡ rows_of r → (a x : ℕ) → a < width → x < width → T (mem pairs.from a and mem pairs.to x)
            → in_row doubts.new a x ≡ (r a x and non
            (reopened (table_at self.now.held.now 2) u.0 (traces_of self.now.traces.now) a x)) }
    {
        if pairs.to.is_within(Set::below(WORD)) {
            self.reopen_in::<false>(u, pairs, doubts);
        } else {
            self.reopen_in::<true>(u, pairs, doubts);
        }
    }

    // ---- what one u makes redundant

    fn sure_row(&self, to: Set, later: Set, a: Activity) -> Set
        ensures { result ≡ those (λ x. mem to x and non
            (doubted (table_at self.now.tally.now before_table) (table_at self.now.held.now 2) later a.0 x)) }
    {
        let Sources { tally, held, .. } = *self;
        let between = later.intersection(tables::row(tally, log::BEFORE, a));
        to.difference(relations::union_of(held, INCLUDES, between))
    }

    // Those go that are not in doubt.
    fn lose_sure(&self, pairs: Pairs, later: Set, left: &mut Rows)
        ensures { Less left.old (λ a x. mem pairs.from a and (mem pairs.to x and non
            (doubted (table_at self.now.tally.now before_table) (table_at self.now.held.now 2) later a x))) left.new }
    {
        for a in pairs.from.members() {
            let gone = self.sure_row(pairs.to, later, a);
            rows::lose(left, a, gone);
        }
    }

    // Those go that no trace lets in: a copy of what is left loses what the traces let in, and what stays in the copy goes.
    fn lose_open(&self, u: Activity, pairs: Pairs, left: &mut Rows)
        ensures { Less left.old (λ a x. mem pairs.from a and mem pairs.to x and non
            (reopened (table_at self.now.held.now 2) u.0 (traces_of self.now.traces.now) a x)) left.new }
    {
        let mut doubts = *left;
        self.reopen_log(u, pairs, &mut doubts);
        pairs.lose_doubted(&doubts, left);
    }

    // Those go that are not in doubt, and of the rest those that no trace lets in.
    fn settle(&self, u: Activity, pairs: Pairs, left: &mut Rows)
        ensures { Less left.old (λ a x. mem pairs.from a and mem pairs.to x and non
            (doubted (table_at self.now.tally.now before_table) (table_at self.now.held.now 2)
            (row_at (table_at self.now.tally.now later_table) u.0) a x
            and reopened (table_at self.now.held.now 2) u.0 (traces_of self.now.traces.now) a x)) left.new }
    {
        let tally = self.tally;
        let later = tables::row(tally, log::LATER, u);
        self.lose_sure(pairs, later, left);
        self.lose_open(u, pairs, left);
    }

    // What u excludes and does not include.
    fn shut_out(&self, u: Activity) -> Set
        ensures { result ≡ those (λ x. in_row (table_at self.now.held.now 3) u.0 x and non (in_row (table_at self.now.held.now 2) u.0 x)) }
    {
        let held = self.held;
        tables::row(held, EXCLUDES, u).difference(tables::row(held, INCLUDES, u))
    }

    // What u makes redundant goes. Asked is only for what is left from some follower.
    fn lose_by(&self, followers: &Rows, u: Activity, left: &mut Rows)
        ensures { Less left.old (redundant_by self.now.tally.now followers.now (table_at self.now.held.now 2)
            (table_at self.now.held.now 3) (traces_of self.now.traces.now) u.0) left.new }
    {
        let from = rows::row(followers, u);
        let shut = self.shut_out(u);
        let to = shut.intersection(relations::union_of(left, 0, from));
        if !to.is_empty() {
            self.settle(u, Pairs { from, to }, left);
        }
    }

    // ---- what all of them do

    fn lose_redundant(&self, events: Set, left: &mut Rows)
        ensures { Less left.old (λ s x. some_below width (λ u. mem events u and
            redundant_by self.now.tally.now (followers_of events self.now.tally.now) (table_at self.now.held.now 2)
            (table_at self.now.held.now 3) (traces_of self.now.traces.now) u s x)) left.new }
    {
        let followers = followers(events, self.tally);
        for u in events.members() {
            self.lose_by(&followers, u, left);
        }
    }
}

// Row u: the events that u alternately precedes.
fn followers(events: Set, tally: &Tally) -> Rows
    ensures { result ≡ followers_of events tally.now }
{
    let alternating = relations::absent(events, tally, log::UNALTERNATED);
    rows::turned(&alternating)
}

// Step 7, on the tables after step 6.
pub(crate) fn put_seven<'a>(
    traces: &'a Traces<'a>,
    events: Set,
    tally: &'a Tally,
    out: &mut Relations,
)
    ensures { (r : Relation) → table_at out.old 3 ≡ rows_of r → out.new ≡ with_table out.old 3
        (seven_from events tally.now (table_at out.old 2) (table_at out.old 3)
        (traces_of traces.now)) }
{
    let mut left = tables::taken(out, EXCLUDES);
    let sources = Sources {
        traces,
        tally,
        held: out,
    };
    sources.lose_redundant(events, &mut left);
    tables::put_rows(out, EXCLUDES, &left);
}
