// The first line: how many events, pairs of each relation, and traces.
ghost use Rattle.std.specs.Prelude.{◌≡◌};
ghost use Rattle.sets.specs.Members.{width, mem, count_below};
ghost use Rattle.sets.specs.Rows.{in_row};
ghost use Rattle.sets.specs.Tables.{table_at};
ghost use Rattle.report.specs.Lines.{space, events_word};
ghost use Rattle.report.specs.Pairs.{pair_count};
ghost use Rattle.report.specs.Puts.{Room, Wrote, named, counts_text, pair_counts, heading_text};

use crate::graph::ListedGraph;
use crate::text::{LINE_END, Page, SPACE};
use engine::graph;
use sets::{Activity, Set, tables};

const EVENTS: [u8; 6] = *b"events";

const TRACES: [u8; 6] = *b"traces";

// The relations' letters.
pub const CONDITIONS: [u8; 1] = *b"C";

pub const RESPONSES: [u8; 1] = *b"R";

pub const INCLUDES: [u8; 1] = *b"I";

pub const EXCLUDES: [u8; 1] = *b"E";

// How many pairs stand in the rows of a table: the tables and the number of one are parameters here, as they are of `tables::row`.
fn pair_count(tables: &[u64], table: u8) -> usize
    ensures { result ≡ pair_count (in_row (table_at tables.now table)) }
{
    let mut n: usize = 0;
    for a in 0..Activity::LIMIT {
        n += tables::row(tables, table, Activity(a)).count() as usize;
    }
    n
}

// The four counts of pairs, each after its relation's letter.
fn put_counts(page: &mut Page<'_>, c: usize, r: usize, i: usize, e: usize)
    requires { Room page.old (counts_text c r i e) }
    ensures { Wrote page.old (counts_text c r i e) page.new }
{
    page.named(&CONDITIONS, c, SPACE);
    page.named(&RESPONSES, r, SPACE);
    page.named(&INCLUDES, i, SPACE);
    page.named(&EXCLUDES, e, SPACE);
}

// The same, of the conditions by source and of the other relations.
fn put_pair_counts(page: &mut Page<'_>, g: &ListedGraph<'_>)
    requires { Room page.old (pair_counts g.now.by_source.now g.now.relations.now) }
    ensures { Wrote page.old (pair_counts g.now.by_source.now g.now.relations.now) page.new }
{
    let (by_source, relations) = (g.by_source, g.relations);
    let c = pair_count(by_source, 0);
    let r = pair_count(relations, graph::RESPONSES);
    let i = pair_count(relations, graph::INCLUDES);
    let e = pair_count(relations, graph::EXCLUDES);
    put_counts(page, c, r, i, e);
}

// The number of events, after its word.
fn put_events(page: &mut Page<'_>, events: Set)
    requires { Room page.old (named events_word (count_below width (mem events)) space) }
    ensures { Wrote page.old (named events_word (count_below width (mem events)) space) page.new }
{
    page.named(&EVENTS, events.count() as usize, SPACE);
}

// The whole line.
pub(crate) fn put_heading(page: &mut Page<'_>, g: &ListedGraph<'_>, traces: usize)
    requires { Room page.old (heading_text (count_below width (mem g.now.head.events)) (pair_counts g.now.by_source.now g.now.relations.now) traces) }
    ensures { Wrote page.old (heading_text (count_below width (mem g.now.head.events)) (pair_counts g.now.by_source.now g.now.relations.now) traces) page.new }
{
    put_events(page, g.head.events);
    put_pair_counts(page, g);
    page.named(&TRACES, traces, LINE_END);
}
