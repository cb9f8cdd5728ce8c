// Rows of sets, one for each activity: how a relation is kept. Only `tables` reads or writes the numbers, so a wider set changes set.rt and
// tables.rt alone.
ghost use Rattle.std.specs.Prelude.{◌≡◌};
ghost use Rattle.sets.specs.Tests.{◌and◌, ◌or◌, non};
ghost use Rattle.sets.specs.Members.{mem, those};
ghost use Rattle.sets.specs.Rows.{Relation, no_rows, row_at, with_row, rows_of, turned};

use crate::activity::{Activity, WIDTH};
use crate::set::Set;
use crate::tables;

// How many words the rows of one relation are: the low words of all rows, then the high ones.
pub const WORDS: usize = WIDTH * 2;

// Plain words and no array of sets: `row_at` and `rows_of` (specs/Rows.antt) are defined of this list of numbers.
pub type Rows = [u64; WORDS];

// Rows that are all empty.
pub fn empty() -> Rows
    ensures { result ≡ no_rows }
{
    [0; WORDS]
}

// Rows by themselves are read and written as the first of several tables.
const ALONE: u8 = 0;

// The activity's row; empty past the last.
pub fn row(rows: &Rows, a: Activity) -> Set
    ensures { result ≡ row_at rows.now a.0 }
{
    tables::row(rows, ALONE, a)
}

// Puts a set into the activity's row; past the last row nothing changes.
pub fn put(rows: &mut Rows, a: Activity, s: Set)
    ensures { rows.new ≡ with_row rows.old a.0 s }
{
    tables::put(rows, ALONE, a, s);
}

// The activity's row gains the members of a set.
pub fn join(rows: &mut Rows, a: Activity, s: Set)
    ensures { rows.new ≡ with_row rows.old a.0 (those (λ b. mem (row_at rows.old a.0) b or mem s b)) }
{
    tables::join(rows, ALONE, a, s);
}

// The activity's row loses the members of a set.
pub fn lose(rows: &mut Rows, a: Activity, gone: Set)
    ensures { rows.new ≡ with_row rows.old a.0 (those (λ b. mem (row_at rows.old a.0) b and non (mem gone b))) }
{
    let left = row(rows, a).difference(gone);
    put(rows, a, left);
}

// The row of every member gains a set.
fn share(rows: &mut Rows, members: Set, gain: Set)
    ensures { (r : Relation) → rows.old ≡ rows_of r → rows.new ≡ rows_of (λ a x. r a x or mem members a and mem gain x) }
{
    for a in members.members() {
        join(rows, a, gain);
    }
}

// Rows by target from rows by source, and back.
pub fn turned(rows: &Rows) -> Rows
    ensures { result ≡ rows_of (turned rows.now) }
{
    let mut out = empty();
    for x in 0..Activity::LIMIT {
        let members = row(rows, Activity(x));
        share(&mut out, members, Set::one(Activity(x)));
    }
    out
}
