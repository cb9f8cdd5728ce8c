// The pairs of the relations, one a line.
ghost use Rattle.sets.specs.Members.{width, mem};
ghost use Rattle.sets.specs.Rows.{in_row};
ghost use Rattle.sets.specs.Tables.{table_at};
ghost use Rattle.report.specs.Pairs.{passing, with_each, pairs_of};
ghost use Rattle.report.specs.Listing.{pair_line, pair_lines};
ghost use Rattle.report.specs.Puts.{Room, Wrote, relations_text};

use crate::graph::ListedGraph;
use crate::heading;
use crate::text::{LINE_END, Page, SPACE};
use engine::graph;
use sets::{Activity, Set, tables};

// The line of one pair.
fn put_pair(page: &mut Page<'_>, letter: &[u8], s: Activity, t: Activity)
    requires { Room page.old (pair_line letter.now (record { source = s.0; target = t.0 })) }
    ensures { Wrote page.old (pair_line letter.now (record { source = s.0; target = t.0 })) page.new }
{
    page.named(letter, s.0 as usize, SPACE);
    page.number(t.0 as usize, LINE_END);
}

// The lines of a source with each of its targets, from the least on.
fn put_row(page: &mut Page<'_>, letter: &[u8], s: Activity, targets: Set)
    requires { Room page.old (pair_lines letter.now (with_each s.0 (passing (mem targets) width 0))) }
    ensures { Wrote page.old (pair_lines letter.now (with_each s.0 (passing (mem targets) width 0))) page.new }
{
    for t in targets.members() {
        put_pair(page, letter, s, t);
    }
}

// The lines of the pairs in the rows of a table.
fn put_pairs<'a>(page: &mut Page<'_>, letter: &'a [u8], tables: &'a [u64], table: u8)
    requires { Room page.old (pair_lines letter.now (pairs_of (in_row (table_at tables.now table)))) }
    ensures { Wrote page.old (pair_lines letter.now (pairs_of (in_row (table_at tables.now table)))) page.new }
{
    for a in 0..Activity::LIMIT {
        let s = Activity(a);
        put_row(page, letter, s, tables::row(tables, table, s));
    }
}

// The lines of the four relations: of the conditions by source, and of the others.
pub(crate) fn put_relations(page: &mut Page<'_>, g: &ListedGraph<'_>)
    requires { Room page.old (relations_text g.now.by_source.now g.now.relations.now) }
    ensures { Wrote page.old (relations_text g.now.by_source.now g.now.relations.now) page.new }
{
    let (by_source, relations) = (g.by_source, g.relations);
    put_pairs(page, &heading::CONDITIONS, by_source, 0);
    put_pairs(page, &heading::RESPONSES, relations, graph::RESPONSES);
    put_pairs(page, &heading::INCLUDES, relations, graph::INCLUDES);
    put_pairs(page, &heading::EXCLUDES, relations, graph::EXCLUDES);
}
