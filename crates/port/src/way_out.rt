// How a half-done call can still finish, and what shut a step out, on the graph of a file (02, 8/12).
ghost use Rattle.std.specs.Prelude.{◌≡◌, length};
ghost use Rattle.sets.specs.Answers.{number_of};
ghost use Rattle.port.specs.WayOut.{way_into, way_after, finish_in, finish_number, finish_bytes, shut_number};
ghost use Rattle.port.specs.WayOut.{desk_finish_in, desk_finish_number, desk_finish_bytes};

use crate::{EMPTY_RELATIONS, lent, packed};
use finish::{Finished, Way};
use sets::{Activity, Answer};

// How many bytes a way takes.
const LENGTH: usize = 4;

// What stands where nothing shut the step out, and beside a refusal: C reads a number there.
const NOTHING: usize = 255;

// Puts a way into the first bytes; where there are fewer than four, nothing changes.
fn put_way(way: Way, out: &mut [u8])
    ensures { out.new ≡ way_into way out.old }
{
    if LENGTH <= out.len() {
        out[0] = way.first.0;
        out[1] = way.second.0;
        out[2] = way.third.0;
        out[3] = way.fourth.0;
    }
}

// What is left of a search: its number, and where it is done its way in the lent bytes.
fn given(f: Finished, way: &mut [u8]) -> u64
    ensures value { result ≡ number_of f.answer }
    ensures way_after { way.new ≡ way_after f way.old }
{
    let answer = f.answer;
    if !answer.is_done() {
        return answer.number() as u64;
    }
    let steps = f.way;
    put_way(steps, way);
    answer.number() as u64
}

// The way out: the file's refusals, then 7 where the marking or the room for the way has too few bytes, then the search's. Reading has
// judged the graph.
fn finished<'a>(file: &'a [u8], marking: &'a [u8], room: usize) -> Finished
    ensures { result ≡ finish_in file.now marking.now room }
{
    let mut relations = EMPTY_RELATIONS;
    let r = graphfile::read_bare(file, &mut relations);
    let answer = r.answer;
    if !answer.is_done() {
        return Finished {
            answer,
            way: Way::NONE,
        };
    }
    if marking.len() < lent::marking_room(file) {
        return Finished {
            answer: Answer::BufferTooSmall,
            way: Way::NONE,
        };
    }
    if room < LENGTH {
        return Finished {
            answer: Answer::BufferTooSmall,
            way: Way::NONE,
        };
    }
    let m = lent::marking_beside(file, marking);
    finish::search::way_out_on(r.events, &relations, m)
}

// The way out from a marking of 32 or 64 bytes into four lent bytes, 255 in those that are not used; they stay as they were where it is
// refused.
pub fn skelfora_finish<'a, 'w>(file: &'a [u8], marking: &'a [u8], way: &'w mut [u8]) -> u64
    ensures value { result ≡ finish_number file.now marking.now (length way.old) }
    ensures way_after { way.new ≡ finish_bytes file.now marking.now way.old }
{
    let f = finished(file, marking, way.len());
    given(f, way)
}

// The way out of the call at a place: what step and close ask first, then 7 where the room has too few bytes, then the desk's answer.
fn finished_at<'a>(file: &'a [u8], table: &'a [u8], place: usize, room: usize) -> Finished
    ensures { result ≡ desk_finish_in file.now table.now place room }
{
    let wide = graphfile::is_wide(file);
    let asked = desk::judge_place(table, place, wide);
    if !asked.is_done() {
        return Finished {
            answer: asked,
            way: Way::NONE,
        };
    }
    let mut relations = EMPTY_RELATIONS;
    let r = graphfile::read_bare(file, &mut relations);
    let answer = r.answer;
    if !answer.is_done() {
        return Finished {
            answer,
            way: Way::NONE,
        };
    }
    if room < LENGTH {
        return Finished {
            answer: Answer::BufferTooSmall,
            way: Way::NONE,
        };
    }
    desk::finish_on(r.events, &relations, table, place, wide)
}

// The same for the call at a place of the desk; the table is lent to be read.
pub fn skelfora_desk_finish<'a, 'w>(
    file: &'a [u8],
    table: &'a [u8],
    place: usize,
    way: &'w mut [u8],
) -> u64
    ensures value { result ≡ desk_finish_number file.now table.now place (length way.old) }
    ensures way_after { way.new ≡ desk_finish_bytes file.now table.now place way.old }
{
    let f = finished_at(file, table, place, way.len());
    given(f, way)
}

// What shut a step out last in a trace and was not followed by what lets it in: the number, and 256 times that activity.
pub fn skelfora_shut_by(file: &[u8], trace: &[u8], activity: u8) -> u64
    ensures { result ≡ shut_number file.now trace.now activity }
{
    let r = graphfile::read(file);
    let answer = r.answer;
    if !answer.is_done() {
        return packed(answer, NOTHING);
    }
    let by = finish::shut::shut_by(&r.graph.relations, trace, Activity(activity));
    packed(answer, by.0 as usize)
}
