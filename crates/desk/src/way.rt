// The way out of the call at a place (02, 8/12: "markings from the file or from the desk"). It only looks: the table is lent to be read.
ghost use Rattle.std.specs.Prelude.{◌≡◌, []};
ghost use Rattle.engine.specs.Relations.{graph_of, in_tables};
ghost use Rattle.finish.specs.Ways.{finished_by};
ghost use Rattle.desk.specs.WayOut.{finished_at, finished_on};

use crate::requests::judge_place;
use crate::table::Table;
use engine::{Head, Relations};
use finish::{Finished, Way, search};
use graphfile::wide_for;
use sets::{Answer, Set};

fn refused(answer: Answer) -> Finished
    ensures { result ≡ finished_by answer [] }
{
    Finished {
        answer,
        way: Way::NONE,
    }
}

// 7 and 14 as step and close have them, then 3, 5, 16 and 17 at the place's own marking; four 255s where it is refused.
pub fn finish<'a>(head: Head, relations: &'a Relations, table: &'a [u8], place: usize) -> Finished
    ensures { result ≡ finished_at (graph_of head relations.now) table.now place }
{
    let wide = wide_for(head.activities);
    let Some(held) = Table::over(table, wide) else {
        return refused(Answer::BufferTooSmall);
    };
    let Some(m) = held.call_at(place) else {
        return refused(Answer::NotOpen);
    };
    search::way_out(head, relations, m)
}

// The same on a graph that was judged before, as one from a file is, whose form is handed over.
pub fn finish_on<'a>(
    events: Set,
    relations: &'a Relations,
    table: &'a [u8],
    place: usize,
    wide: bool,
) -> Finished
    ensures { result ≡ finished_on wide events (in_tables relations.now) table.now place }
{
    let asked = judge_place(table, place, wide);
    if !asked.is_done() {
        return refused(asked);
    }
    let held = Table { bytes: table, wide };
    let m = held.marking_at(place);
    search::way_out_on(events, relations, m)
}
