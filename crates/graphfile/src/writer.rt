// The writer: a graph's file, into a lent buffer.
ghost use Rattle.std.specs.Prelude.{◌≡◌, [], ◌∷◌, ◌++◌, ◌+◌, ◌*◌, ◌≤◌, length};
ghost use Rattle.std.proofs.lemmas.List.Edits.{sets};
ghost use Rattle.sets.specs.Members.{width};
ghost use Rattle.sets.specs.Tables.{table_at};
ghost use Rattle.engine.specs.Relations.{relation_count, graph_of};
ghost use Rattle.octets.specs.Editions.{edition_for};
ghost use Rattle.graphfile.specs.Layout.{letters, wide_for, events_place, entries_place, state_length, entry_length, head_length, rows_length};
ghost use Rattle.graphfile.specs.Writing.{rows_for, row_of, row_count, AreCounts, rows_before, relation_bytes};
ghost use Rattle.graphfile.specs.Writing.{entry_bytes, entries_for, state_bytes, head_bytes, relations_bytes, bytes_by, written_of, file_after, unjudged_of, unjudged_after};

use crate::counts::Counts;
use crate::layout;
use engine::graph::KINDS;
use engine::judge::judge_for;
use engine::{Graph, Head, Relations, State};
use octets::edition::edition_for;
use octets::number::LENGTH as NUMBER;
use octets::{put_number, put_set, set};
use sets::{Activity, Answer, Set, tables};

// What a write gives: the answer, and the file's length; 0 where it is refused.
#[derive(Clone, Copy)]
pub struct Written {
    pub answer: Answer,
    pub length: usize,
}

// How many rows of the file a set takes: none where it is empty.
fn rows_for(s: Set) -> usize
    ensures value { result ≡ rows_for s }
    ensures upper_bound { result ≤ 1 }
{
    if s.is_empty() {
        return 0;
    }
    1
}

// How many rows of relation r that the form has a place for are not empty. The form is a const parameter, here and where the rows are stored: so the
// compiler knows where each loop over the rows ends, and tests at no row whether it is there.
pub(crate) fn row_count<const WIDE: bool>(relations: &Relations, r: u8) -> usize
    ensures value { result ≡ row_count WIDE (table_at relations.now r) }
    ensures upper_bound { result ≤ width }
{
    let mut n = 0;
    let end = layout::most_rows(WIDE);
    for a in 0..end {
        n += rows_for(tables::row(relations, r, Activity(a)));
    }
    n
}

// Stores the row of an activity, if it is not empty, and gives the place after it. Buffer and place stay two parameters: the public functions of octets
// take them so, and a struct of both would be taken apart at each call.
fn put_row<const WIDE: bool>(out: &mut [u8], at: usize, key: Activity, s: Set) -> usize
    requires { at + rows_length WIDE (rows_for s) ≤ length out.old }
    ensures value { result ≡ at + rows_length WIDE (rows_for s) }
    ensures out_after { out.new ≡ sets out.old at (row_of WIDE key.0 s) }
{
    if s.is_empty() {
        return at;
    }
    out[at] = key.0;
    put_set(out, at + 1, s, WIDE);
    at + 1 + set::length(WIDE)
}

// Stores the rows of relation r, and gives the place after them.
fn put_rows<const WIDE: bool>(out: &mut [u8], at: usize, relations: &Relations, r: u8) -> usize
    requires { at + rows_length WIDE (row_count WIDE (table_at relations.now r)) ≤ length out.old }
    ensures value { result ≡ at + rows_length WIDE (row_count WIDE (table_at relations.now r)) }
    ensures out_after { out.new ≡ sets out.old at (relation_bytes WIDE (table_at relations.now r)) }
{
    let mut next = at;
    for a in 0..layout::most_rows(WIDE) {
        let key = Activity(a);
        next = put_row::<WIDE>(out, next, key, tables::row(relations, r, key));
    }
    next
}

// Stores the letters, the edition and A.
fn put_letters(out: &mut [u8], activities: u8)
    requires { events_place ≤ length out.old }
    ensures { out.new ≡ sets out.old 0 (letters ++ (edition_for activities ∷ activities ∷ [])) }
{
    let letters = layout::LETTERS;
    out[0] = letters[0];
    out[1] = letters[1];
    out[2] = edition_for(activities);
    out[layout::ACTIVITIES] = activities;
}

// Stores what a file holds of a marking: executed, pending, included.
pub(crate) fn put_state(out: &mut [u8], at: usize, s: State, wide: bool)
    requires { at + state_length wide ≤ length out.old }
    ensures { out.new ≡ sets out.old at (state_bytes wide s) }
{
    let set = set::length(wide);
    put_set(out, at, s.executed, wide);
    put_set(out, at + set, s.pending, wide);
    put_set(out, at + 2 * set, s.included, wide);
}

// Stores the letters, the edition, A and the four sets.
fn put_head(out: &mut [u8], head: Head, wide: bool)
    requires { head_length wide ≤ length out.old }
    ensures { out.new ≡ sets out.old 0 (head_bytes wide head) }
{
    put_letters(out, head.activities);
    put_set(out, layout::EVENTS, head.events, wide);
    put_state(
        out,
        layout::EVENTS + set::length(wide),
        head.opening.state,
        wide,
    );
}

// Stores an entry: where the relation's rows begin, counted in bytes from the first row, and how many there are.
fn put_entry(out: &mut [u8], at: usize, earlier: usize, count: usize, wide: bool)
    requires { (at + entry_length ≤ length out.old) × (earlier ≤ width * relation_count) × (count ≤ width) }
    ensures { out.new ≡ sets out.old at (entry_bytes wide earlier count) }
{
    put_number(out, at, layout::rows_length(wide, earlier) as u16);
    put_number(out, at + NUMBER, count as u16);
}

// Stores the four entries.
fn put_entries(out: &mut [u8], c: Counts, wide: bool)
    requires { head_length wide ≤ length out.old }
    ensures { out.new ≡ sets out.old (entries_place wide) (entries_for wide c) }
{
    let at = layout::entries_place(wide);
    let two = c.conditions + c.responses;
    let three = two + c.includes;
    put_entry(out, at, 0, c.conditions, wide);
    put_entry(out, at + layout::ENTRY, c.conditions, c.responses, wide);
    put_entry(out, at + 2 * layout::ENTRY, two, c.includes, wide);
    put_entry(out, at + 3 * layout::ENTRY, three, c.excludes, wide);
}

// Stores the rows of the four relations.
fn put_relations<const WIDE: bool>(out: &mut [u8], relations: &Relations)
    requires { head_length WIDE + rows_length WIDE (rows_before WIDE relations.now relation_count) ≤ length out.old }
    ensures { out.new ≡ sets out.old (head_length WIDE) (relations_bytes WIDE relations.now relation_count) }
{
    let mut next = layout::head_length(WIDE);
    for r in 0..KINDS {
        next = put_rows::<WIDE>(out, next, relations, r);
    }
}

// Stores the file of a graph.
fn put_file<const WIDE: bool>(out: &mut [u8], head: Head, relations: &Relations, counts: Counts)
    requires counts_value { AreCounts WIDE relations.now counts }
    requires relation_count_in_bounds { head_length WIDE + rows_length WIDE (rows_before WIDE relations.now relation_count) ≤ length out.old }
    ensures { out.new ≡ sets out.old 0 (bytes_by WIDE (graph_of head relations.now)) }
{
    put_head(out, head, WIDE);
    put_entries(out, counts, WIDE);
    put_relations::<WIDE>(out, relations);
}

// Writes the file of a graph that has this form.
fn write_in<const WIDE: bool>(head: Head, relations: &Relations, out: &mut [u8]) -> Written
    requires { WIDE ≡ wide_for head.activities }
    ensures value { result ≡ unjudged_of (graph_of head relations.now) (length out.old) }
    ensures out_after { out.new ≡ unjudged_after (graph_of head relations.now) out.old }
{
    let counts = Counts::of::<WIDE>(relations);
    let length = layout::head_length(WIDE) + layout::rows_length(WIDE, counts.total());
    if out.len() < length {
        return Written {
            answer: Answer::BufferTooSmall,
            length: 0,
        };
    }
    put_file::<WIDE>(out, head, relations, counts);
    Written {
        answer: Answer::Done,
        length,
    }
}

// Writes the file of a graph that nobody judges here, for callers that have it from a reader or a miner. Of a graph that is refused when it is
// judged, the bytes are no graph file.
pub fn write_unjudged(head: Head, relations: &Relations, out: &mut [u8]) -> Written
    ensures value { result ≡ unjudged_of (graph_of head relations.now) (length out.old) }
    ensures out_after { out.new ≡ unjudged_after (graph_of head relations.now) out.old }
{
    if layout::wide_for(head.activities) {
        write_in::<true>(head, relations, out)
    } else {
        write_in::<false>(head, relations, out)
    }
}

// Writes the file of a graph into the first bytes of a buffer.
pub fn write(g: Graph, out: &mut [u8]) -> Written
    ensures value { result ≡ written_of g (length out.old) }
    ensures out_after { out.new ≡ file_after g out.old }
{
    let head = g.head;
    let answer = judge_for(head, &g.relations, 0);
    if !answer.is_done() {
        return Written { answer, length: 0 };
    }
    write_unjudged(head, &g.relations, out)
}
