// How many other events each event is a condition for, and how many others it excludes (02, 3/12), into a lent buffer.
ghost use Rattle.std.specs.Prelude.{◌≡◌, ◌+◌, ◌≤◌, length};
ghost use Rattle.sets.specs.Rows.{in_row};
ghost use Rattle.sets.specs.Tables.{table_at};
ghost use Rattle.report.specs.Puts.{Put, Room, Wrote, row_counts, summary_text};
ghost use Rattle.report.specs.Summary.{others_of, summary_answer, summary_after};

use crate::lent;
use crate::text::Page;
use engine::Relations;
use engine::graph::{CONDITIONS, EXCLUDES, KINDS};
use rules::Profile;
use sets::rows::WORDS;
use sets::{Activity, Answer, Set, rows, tables};

// How many others stand in the activity's row of a table.
fn others(tables: &[u64], table: u8, a: Activity) -> u8
    ensures { result ≡ others_of (in_row (table_at tables.now table)) a.0 }
{
    let row = tables::row(tables, table, a);
    let rest = row.difference(Set::one(a));
    rest.count()
}

// The same of the first activities, a byte each.
fn put_counts(page: &mut Page<'_>, most: u8, tables: &[u64], table: u8)
    requires { Room page.old (row_counts most tables.now table) }
    ensures { Wrote page.old (row_counts most tables.now table) page.new }
{
    for a in 0..most {
        page.byte(others(tables, table, Activity(a)));
    }
}

// The counts of the conditions by source, then those of the excludes.
fn put_summary(out: &mut [u8], most: u8, relations: &Relations) -> usize
    requires { 0 + length (summary_text most relations.now) ≤ length out.old }
    ensures { Put out.old 0 (summary_text most relations.now) out.new result }
{
    let conditions = tables::taken(relations, CONDITIONS);
    let listed = rows::turned(&conditions);
    let mut page = Page::new(out);
    put_counts(&mut page, most, &listed, 0);
    put_counts(&mut page, most, relations, EXCLUDES);
    page.at
}

// Summarizes a log's graph, two bytes for each activity that the log may have: the log's answer, or 7 where the buffer has fewer.
pub fn write_summary(log: &[u8], profile: Profile, out: &mut [u8]) -> Answer
    ensures value { result ≡ summary_answer log.now (length out.old) }
    ensures out_after { out.new ≡ summary_after log.now profile out.old }
{
    let mut relations: Relations = [0; KINDS as usize * WORDS];
    let mined = miner::mine_into(log, profile, &mut relations);
    let answer = mined.answer;
    if !answer.is_done() {
        return answer;
    }
    let most = lent::most_in(log);
    if out.len() < 2 * most as usize {
        return Answer::BufferTooSmall;
    }
    put_summary(out, most, &relations);
    answer
}
