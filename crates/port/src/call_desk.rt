// The call desk's functions (02, 5/12), on the graph of a file and a table of 1,056 lent bytes, or 2,080 by the file's edition. The file is
// judged where the desk judges its graph: after the table, and after the place of step and close. Reading has judged it, so that step and
// close judge the call's marking alone.
ghost use Rattle.std.specs.Prelude.{◌≡◌};
ghost use Rattle.port.specs.Desk.{desk_open_number, desk_open_table, desk_step_number, desk_step_table};
ghost use Rattle.port.specs.Desk.{desk_close_number, desk_close_table};

use crate::{EMPTY_RELATIONS, lent, packed, packed_blocker};
use sets::{Activity, Answer};

// Opens the lowest free place: the number and the place; 255 where it is refused.
pub fn skelfora_desk_open(file: &[u8], table: &mut [u8]) -> u64
    ensures value { result ≡ desk_open_number file.now table.old }
    ensures table_after { table.new ≡ desk_open_table file.now table.old }
{
    if table.len() < lent::table_room(file) {
        return packed(Answer::BufferTooSmall, desk::requests::NO_PLACE);
    }
    let r = graphfile::read(file);
    let answer = r.answer;
    if !answer.is_done() {
        return packed(answer, desk::requests::NO_PLACE);
    }
    let head = r.graph.head;
    let opened = desk::open(head, &r.graph.relations, table);
    packed(opened.answer, opened.place)
}

// One activity at one place: the number, and the blocker.
pub fn skelfora_desk_step(file: &[u8], table: &mut [u8], place: usize, activity: u8) -> u64
    ensures value { result ≡ desk_step_number file.now table.old place activity }
    ensures table_after { table.new ≡ desk_step_table file.now table.old place activity }
{
    let wide = graphfile::is_wide(file);
    let asked = desk::judge_place(table, place, wide);
    if !asked.is_done() {
        return packed_blocker(asked, 0, false);
    }
    let mut relations = EMPTY_RELATIONS;
    let r = graphfile::read_bare(file, &mut relations);
    let answer = r.answer;
    if !answer.is_done() {
        return packed_blocker(answer, 0, false);
    }
    let given = desk::step_on(r.events, &relations, table, place, Activity(activity), wide);
    packed_blocker(given, 0, false)
}

// Frees a place whose call is accepting: the number.
pub fn skelfora_desk_close(file: &[u8], table: &mut [u8], place: usize) -> u64
    ensures value { result ≡ desk_close_number file.now table.old place }
    ensures table_after { table.new ≡ desk_close_table file.now table.old place }
{
    let wide = graphfile::is_wide(file);
    let asked = desk::judge_place(table, place, wide);
    if !asked.is_done() {
        return packed(asked, 0);
    }
    let mut relations = EMPTY_RELATIONS;
    let r = graphfile::read_bare(file, &mut relations);
    let answer = r.answer;
    if !answer.is_done() {
        return packed(answer, 0);
    }
    let given = desk::close_on(r.events, &relations, table, place, wide);
    packed(given, 0)
}
