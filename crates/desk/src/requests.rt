// What is asked of the desk (02, 5/12): open, step, close. Each is judged first, with nothing changed, and served then.
ghost use Rattle.std.specs.Prelude.{◌≡◌};
ghost use Rattle.engine.specs.Relations.{graph_of, in_tables};
ghost use Rattle.engine.specs.Enabled.{marked};
ghost use Rattle.engine.specs.Steps.{after};
ghost use Rattle.desk.specs.Desk.{opened_of, table_opened, place_answer, closing_after};
ghost use Rattle.desk.specs.Desk.{step_answer, table_stepped, close_answer, table_closed, step_answer_on, table_stepped_on, close_answer_on, table_closed_on};

use crate::table;
use crate::table::Table;
use engine::{Head, Marking, Relations, enabled, judge, step as rules};
use graphfile::wide_for;
use sets::{Activity, Answer, Set};

// What stands in a place's stead where open is refused.
pub const NO_PLACE: usize = 255;

// What open gives: its answer, and the place; 255 where it is refused.
#[derive(Clone, Copy)]
pub struct Opened {
    pub answer: Answer,
    pub place: usize,
}

impl Opened {
    fn refused(answer: Answer) -> Opened
        ensures { result ≡ record { answer = answer; place = 255 } }
    {
        Opened {
            answer,
            place: NO_PLACE,
        }
    }
}

// Opens the lowest free place, at the graph's opening marking: 7 where the bytes are too few for a table, 3, 5 and 16 for the graph, then 13.
pub fn open(head: Head, relations: &Relations, table: &mut [u8]) -> Opened
    ensures value { result ≡ opened_of (graph_of head relations.now) table.old }
    ensures table_after { table.new ≡ table_opened (graph_of head relations.now) table.old }
{
    let wide = wide_for(head.activities);
    let Some(held) = Table::over(table, wide) else {
        return Opened::refused(Answer::BufferTooSmall);
    };
    let answer = judge::judge_for(head, relations, 0);
    if !answer.is_done() {
        return Opened::refused(answer);
    }
    let Some(place) = held.lowest_free() else {
        return Opened::refused(Answer::NoPlaceFree);
    };
    table::put_place(table, place, table::TAKEN, head.opening, wide);
    Opened { answer, place }
}

// What step, close and a way out ask of the table first: 7, then 14. This is for `finish_on` and for `port`; the others ask the same of
// `Table::over` and `Table::call_at`, which give the marking too.
pub fn judge_place(table: &[u8], place: usize, wide: bool) -> Answer
    ensures { result ≡ place_answer wide table.now place }
{
    let Some(held) = Table::over(table, wide) else {
        return Answer::BufferTooSmall;
    };
    if held.is_open(place) {
        Answer::Done
    } else {
        Answer::NotOpen
    }
}

// The marking after a step from another.
fn stepped(events: Set, relations: &Relations, m: Marking, a: Activity) -> Marking
    ensures { result ≡ marked events (in_tables relations.now) (after (in_tables relations.now) m.state a.0) }
{
    let after = rules::next(relations, m.state, a);
    enabled::marked(events, relations, after)
}

// One activity at one place: 7 and 14, then 3, 5, 16, 8, 9, 10 at the place's own marking. Beside 10 the answer has the blocker.
pub fn step(
    head: Head,
    relations: &Relations,
    table: &mut [u8],
    place: usize,
    a: Activity,
) -> Answer
    ensures value { result ≡ step_answer (graph_of head relations.now) table.old place a.0 }
    ensures table_after { table.new ≡ table_stepped (graph_of head relations.now) table.old place a.0 }
{
    let wide = wide_for(head.activities);
    let Some(held) = Table::over(table, wide) else {
        return Answer::BufferTooSmall;
    };
    let Some(m) = held.call_at(place) else {
        return Answer::NotOpen;
    };
    let answer = rules::ask_judged(head, relations, m, a);
    if !answer.is_done() {
        return answer;
    }
    let after = stepped(head.events, relations, m, a);
    table::put_marking(table, place, after, wide);
    answer
}

// The same on a graph that was judged before, as one from a file is.
pub fn step_on(
    events: Set,
    relations: &Relations,
    table: &mut [u8],
    place: usize,
    a: Activity,
    wide: bool,
) -> Answer
    ensures value { result ≡ step_answer_on wide events (in_tables relations.now) table.old place a.0 }
    ensures table_after { table.new ≡ table_stepped_on wide events (in_tables relations.now) table.old place a.0 }
{
    let Some(held) = Table::over(table, wide) else {
        return Answer::BufferTooSmall;
    };
    let Some(m) = held.call_at(place) else {
        return Answer::NotOpen;
    };
    let answer = rules::ask_on(events, relations, m, a);
    if !answer.is_done() {
        return answer;
    }
    let after = stepped(events, relations, m, a);
    table::put_marking(table, place, after, wide);
    answer
}

// What was judged of a call, then 15.
fn ask_closing(judged: Answer, m: Marking) -> Answer
    ensures { result ≡ closing_after judged m }
{
    if !judged.is_done() {
        return judged;
    }
    if !rules::is_accepting(m.state) {
        return Answer::NotAccepting;
    }
    Answer::Done
}

// Frees a place whose call is accepting: 7 and 14, then 3, 5, 16, 15 at the place's own marking.
pub fn close(head: Head, relations: &Relations, table: &mut [u8], place: usize) -> Answer
    ensures value { result ≡ close_answer (graph_of head relations.now) table.old place }
    ensures table_after { table.new ≡ table_closed (graph_of head relations.now) table.old place }
{
    let wide = wide_for(head.activities);
    let Some(held) = Table::over(table, wide) else {
        return Answer::BufferTooSmall;
    };
    let Some(last) = held.call_at(place) else {
        return Answer::NotOpen;
    };
    let judged = judge::judge_beside(head, relations, last);
    let answer = ask_closing(judged, last);
    if !answer.is_done() {
        return answer;
    }
    table::put_place(table, place, table::FREE, Marking::EMPTY, wide);
    answer
}

// The same on a graph that was judged before.
pub fn close_on(
    events: Set,
    relations: &Relations,
    table: &mut [u8],
    place: usize,
    wide: bool,
) -> Answer
    ensures value { result ≡ close_answer_on wide events (in_tables relations.now) table.old place }
    ensures table_after { table.new ≡ table_closed_on wide events (in_tables relations.now) table.old place }
{
    let Some(held) = Table::over(table, wide) else {
        return Answer::BufferTooSmall;
    };
    let Some(marking) = held.call_at(place) else {
        return Answer::NotOpen;
    };
    let judged = judge::judge_marking(events, relations, marking);
    let answer = ask_closing(judged, marking);
    if !answer.is_done() {
        return answer;
    }
    table::put_place(table, place, table::FREE, Marking::EMPTY, wide);
    answer
}
