// The steps of mining that work on rows of sets: a few words a row, and no look at the log. A relation's rows are made at the events alone,
// each by a function of its own; all other rows stay empty.
ghost use Rattle.std.specs.Prelude.{◌≡◌, eqb};
ghost use Rattle.sets.specs.Tests.{◌and◌, non};
ghost use Rattle.sets.specs.Members.{width, mem, those, some_below};
ghost use Rattle.sets.specs.Rows.{in_row, rows_for};
ghost use Rattle.sets.specs.Tables.{table_at};
ghost use Rattle.steps.specs.Rowwise.{unbroken, absent, excludes_itself, smallest, apart, closing, excluders, in_either, waited};

use crate::rowwise::rows_at;
use sets::{Activity, Rows, Set, rows, tables};

fn others(events: Set, a: Activity) -> Set
    ensures { result ≡ those (λ x. mem events x and non (eqb x a.0)) }
{
    events.difference(Set::one(a))
}

// ---- steps 2 and 3

fn unbroken_row(events: Set, tables: &[u64], broken: u8, a: Activity) -> Set
    ensures { result ≡ those (unbroken events (table_at tables.now broken) a.0) }
{
    others(events, a).difference(tables::row(tables, broken, a))
}

// The pairs of two events that nothing broke, by the table of what breaks the rule.
pub fn unbroken(events: Set, tables: &[u64], broken: u8) -> Rows
    ensures { result ≡ rows_for events (unbroken events (table_at tables.now broken)) }
{
    rows_at(events, |a| unbroken_row(events, tables, broken, a))
}

// ---- steps 1, 3, 4 and 5: what excludes a target

// Of the sources of one step's pairs the smallest. An empty set has the width as its least member, which no set can hold.
fn smallest(sources: Set) -> Set
    ensures { result ≡ those (smallest (mem sources)) }
{
    Set::one(sources.least())
}

// The tables that steps 1 to 5 ask: of what stands before an activity, and of what stands after it.
#[derive(Clone, Copy)]
struct Sides<'a> {
    tables: &'a [u64],
    before: u8,
    later: u8,
}

impl<'a> Sides<'a> {
    fn excludes_itself(&self, chains: &Rows, a: Activity) -> bool
        ensures { result ≡ excludes_itself (table_at self.now.tables.now self.now.before) chains.now a.0 }
    {
        if !tables::row(self.tables, self.before, a).has(a) {
            return true;
        }
        !rows::row(chains, a).is_empty()
    }

    // Step 4: what is never in a trace with the target.
    fn apart_row(&self, events: Set, a: Activity) -> Set
        ensures { result ≡ those (apart events (table_at self.now.tables.now self.now.before)
            (table_at self.now.tables.now self.now.later) a.0) }
    {
        let before = tables::row(self.tables, self.before, a);
        let together = before.union(tables::row(self.tables, self.later, a));
        others(events, a).difference(together)
    }

    // Step 5: for a target that does not exclude itself, what comes after it and never before.
    fn closing_row(&self, events: Set, itself: bool, a: Activity) -> Set
        ensures { result ≡ those (closing events itself (table_at self.now.tables.now self.now.before)
            (table_at self.now.tables.now self.now.later) a.0) }
    {
        if itself {
            return Set::EMPTY;
        }
        let after = events.intersection(tables::row(self.tables, self.later, a));
        after.difference(tables::row(self.tables, self.before, a))
    }

    fn excluders(&self, events: Set, chains: &Rows, a: Activity) -> Set
        ensures { result ≡ those (excluders events (table_at self.now.tables.now self.now.before)
            (table_at self.now.tables.now self.now.later) chains.now a.0) }
    {
        let itself = self.excludes_itself(chains, a);
        let four = smallest(self.apart_row(events, a));
        let five = smallest(self.closing_row(events, itself, a));
        Set::one_if(itself, a).union(four).union(five)
    }
}

// Steps 1 to 5: for each target what excludes it. It may itself, and so does the smallest source of step 4's own pairs and of step 5's.
pub fn excluded_by<'a>(
    events: Set,
    tables: &'a [u64],
    before: u8,
    later: u8,
    chains: &'a Rows,
) -> Rows
    ensures { result ≡ rows_for events (excluders events (table_at tables.now before) (table_at tables.now later)
        chains.now) }
{
    let sides = Sides {
        tables,
        before,
        later,
    };
    rows_at(events, |a| sides.excluders(events, chains, a))
}

// ---- step 6

fn absent_row(events: Set, tables: &[u64], there: u8, a: Activity) -> Set
    ensures { result ≡ those (absent events (table_at tables.now there) a.0) }
{
    events.difference(tables::row(tables, there, a))
}

// The pairs of events that a table does not have.
pub fn absent(events: Set, tables: &[u64], there: u8) -> Rows
    ensures { result ≡ rows_for events (absent events (table_at tables.now there)) }
{
    rows_at(events, |a| absent_row(events, tables, there, a))
}

fn united_row<'a>(rows: &'a Rows, others: &'a Rows, a: Activity) -> Set
    ensures { result ≡ those (in_either rows.now others.now a.0) }
{
    rows::row(rows, a).union(rows::row(others, a))
}

// The pairs of both, at the events.
pub fn united<'a>(events: Set, rows: &'a Rows, others: &'a Rows) -> Rows
    ensures { result ≡ rows_for events (in_either rows.now others.now) }
{
    rows_at(events, |a| united_row(rows, others, a))
}

// ---- of some rows

// What stands in a table's row of some member.
pub fn union_of(tables: &[u64], table: u8, members: Set) -> Set
    ensures { result ≡ those (λ x. some_below width (λ u. mem members u and in_row (table_at tables.now table) u x)) }
{
    let mut out = Set::EMPTY;
    for u in members.members() {
        out = out.union(tables::row(tables, table, u));
    }
    out
}

// ---- step 9

// What stands before the first a of some trace, and is missed at no a.
fn waited_for<'a>(ahead: &'a Rows, missed: &'a Rows, a: Activity) -> Set
    ensures { result ≡ those (λ x. non (eqb x a.0) and in_row ahead.now a.0 x and non
        (in_row missed.now a.0 x)) }
{
    let other = Set::one(a).complement();
    other
        .intersection(rows::row(ahead, a))
        .difference(rows::row(missed, a))
}

fn waited_row<'a>(
    events: Set,
    conditions: &'a Rows,
    ahead: &'a Rows,
    missed: &'a Rows,
    a: Activity,
) -> Set
    ensures { result ≡ those (waited events conditions.now ahead.now missed.now a.0) }
{
    let sources = rows::row(conditions, a).union(waited_for(ahead, missed, a));
    events.intersection(sources)
}

// The conditions by target, and those that are waited for.
pub fn waited<'a>(events: Set, conditions: &'a Rows, ahead: &'a Rows, missed: &'a Rows) -> Rows
    ensures { result ≡ rows_for events (waited events conditions.now ahead.now missed.now) }
{
    rows_at(events, |a| waited_row(events, conditions, ahead, missed, a))
}
