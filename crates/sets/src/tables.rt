// Several relations kept in one array: the rows of table 0, then those of table 1, and so on. Rows past the end are empty, and
// a put there changes nothing, so the length is no concern of a caller.
ghost use Rattle.std.specs.Prelude.{◌≡◌, get_or, set};
ghost use Rattle.sets.specs.Rows.{no_rows, row_at};
ghost use Rattle.sets.specs.Tables.{table_at, with_row_in, gained_in, with_table};

use crate::activity::{Activity, WIDTH};
use crate::rows;
use crate::rows::Rows;
use crate::set::Set;

// The word at a place; 0 where there is none.
fn word_at(tables: &[u64], i: usize) -> u64
    ensures { result ≡ get_or tables.now i 0 }
{
    tables.get(i).copied().unwrap_or(0)
}

// Puts a word at a place; where there is none, nothing changes.
fn put_word(tables: &mut [u64], i: usize, x: u64)
    ensures { tables.new ≡ set tables.old i x }
{
    if i < tables.len() {
        tables[i] = x;
    }
}

// The activity's row of a table.
pub fn row(tables: &[u64], table: u8, a: Activity) -> Set
    ensures { result ≡ row_at (table_at tables.now table) a.0 }
{
    let n = a.0 as usize;
    if WIDTH <= n {
        return Set::EMPTY;
    }
    let i = table as usize * rows::WORDS + n;
    Set {
        low: word_at(tables, i),
        high: word_at(tables, i + WIDTH),
    }
}

// Puts a set into the activity's row of a table.
pub fn put(tables: &mut [u64], table: u8, a: Activity, s: Set)
    ensures { tables.new ≡ with_row_in tables.old table a.0 s }
{
    let n = a.0 as usize;
    if n < WIDTH {
        let i = table as usize * rows::WORDS + n;
        put_word(tables, i, s.low);
        put_word(tables, i + WIDTH, s.high);
    }
}

// The activity's row of a table gains the members of a set.
pub fn join(tables: &mut [u64], table: u8, a: Activity, s: Set)
    ensures { tables.new ≡ gained_in tables.old table a.0 s }
{
    let old = row(tables, table, a);
    put(tables, table, a, old.union(s));
}

// Puts a relation's rows into a table: word by word and not row by row, so that the compiler makes it a copy of memory.
pub fn put_rows(tables: &mut [u64], table: u8, rows: &Rows)
    ensures { tables.new ≡ with_table tables.old table rows.now }
{
    let first = table as usize * rows::WORDS;
    for (i, &word) in rows.iter().enumerate() {
        put_word(tables, first + i, word);
    }
}

// The rows of a table by themselves, copied in the same way.
pub fn taken(tables: &[u64], table: u8) -> Rows
    ensures { result ≡ with_table no_rows 0 (table_at tables.now table) }
{
    let first = table as usize * rows::WORDS;
    let mut out = rows::empty();
    for i in 0..rows::WORDS {
        out[i] = word_at(tables, first + i);
    }
    out
}
