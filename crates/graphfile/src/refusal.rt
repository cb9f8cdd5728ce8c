// The refusals of a graph file, in 01's order: of all that stands before the rows, and of one row. The reader goes from row to row.
ghost use Rattle.std.specs.Prelude.{◌≡◌, ◌<◌, false};
ghost use Rattle.engine.specs.Relations.{relation_count};
ghost use Rattle.sets.specs.Answers.{is_done, first_refusal};
ghost use Rattle.graphfile.specs.Refusals.{judged_sets, judged_head, judged_entry, judged_end, judged_before_rows, row_answer};

use crate::file::File;
use crate::layout;
use engine::judge::state_within;
use octets::edition;
use sets::{Activity, Answer, Set};

// The events and the marking.
fn judge_sets(file: &File) -> Answer
    ensures { result ≡ judged_sets file.now.bytes.now }
{
    if !file.events.is_within(Set::below(file.activities())) {
        return Answer::Outside;
    }
    if !state_within(file.events, file.state) {
        return Answer::Outside;
    }
    Answer::Done
}

fn judge_head(file: &File) -> Answer
    ensures { result ≡ judged_head file.now.bytes.now }
{
    if edition::is_beyond(edition::edition_in(file.bytes), file.activities()) {
        return Answer::AboveLimit;
    }
    judge_sets(file)
}

#[tactic(auto, using(crate::proofs::Judging::entries))]
fn judge_entry(file: &File, r: usize) -> Answer
    requires { r < relation_count }
    ensures { result ≡ judged_entry file.now.bytes.now r }
{
    if file.count(r) > layout::most_rows(file.wide) as usize {
        return Answer::AboveLimit;
    }
    if file.offset(r) != layout::rows_length(file.wide, file.earlier_rows(r)) {
        return Answer::WrongOffset;
    }
    Answer::Done
}

fn judge_entries(file: &File) -> Answer
    ensures { result ≡ first_refusal relation_count (judged_entry file.now.bytes.now) }
{
    for r in 0..layout::RELATIONS {
        let answer = judge_entry(file, r);
        if !answer.is_done() {
            return answer;
        }
    }
    Answer::Done
}

#[tactic(auto, using(crate::proofs::Judging::ends))]
fn judge_end(file: &File) -> Answer
    ensures { result ≡ judged_end file.now.bytes.now }
{
    let end = layout::row_place(file.wide, file.earlier_rows(layout::RELATIONS));
    if file.bytes.len() < end {
        return Answer::TooShort;
    }
    if end < file.bytes.len() {
        return Answer::WrongOffset;
    }
    Answer::Done
}

// Whether a row is accepted, by its key and its set. It is asked by itself: the loop over the rows then carries no answer from row to row,
// and takes a tenth less. That emptiness is asked before the other question about the set is for speed alone (docs/DESIGN-PASS.md, Speed).
pub(crate) fn is_right(events: Set, key: Activity, row: Set, above: bool) -> bool
    ensures { result ≡ is_done (row_answer events key.0 row above) }
{
    if !events.has(key) {
        return false;
    }
    if row.is_empty() {
        return false;
    }
    if !row.is_within(events) {
        return false;
    }
    above
}

// What a row that is not is refused with: 5, then 6.
pub(crate) fn refused_row(events: Set, key: Activity, row: Set) -> Answer
    ensures { result ≡ row_answer events key.0 row false }
{
    if !events.has(key) {
        return Answer::Outside;
    }
    if !row.is_within(events) {
        return Answer::Outside;
    }
    Answer::BadRow
}

// All that stands before the rows: the head, entry by entry, then the end.
pub(crate) fn judge_before_rows(file: &File) -> Answer
    ensures { result ≡ judged_before_rows file.now.bytes.now }
{
    let head = judge_head(file);
    if !head.is_done() {
        return head;
    }
    let entries = judge_entries(file);
    if !entries.is_done() {
        return entries;
    }
    judge_end(file)
}
