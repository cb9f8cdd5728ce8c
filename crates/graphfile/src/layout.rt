// What stands where in a graph file, whose sets have 8 bytes or 16 by its edition (02, 10/12).
ghost use Rattle.std.specs.Prelude.{◌≡◌, ◌+◌, ◌*◌, ◌^◌, ◌≤◌, ◌<◌, length};
ghost use Rattle.graphfile.specs.Layout.{wide_for, entries_place, head_length, rows_length, state_length, state_at, state_in, marking_at};
ghost use Rattle.octets.specs.Editions.{wide_in};
ghost use Rattle.graphfile.specs.Layout.{head_at, head_in};
ghost use Rattle.graphfile.specs.Refusals.{most_rows};
ghost use Rattle.graphfile.specs.Markings.{marking_length};
ghost use Rattle.graphfile.specs.Heads.{lone_head_length};
ghost use Rattle.sets.specs.Members.{width};
ghost use Rattle.engine.specs.Relations.{relation_count};
ghost use Rattle.octets.specs.Numbers.{number_length, number_at};
ghost use Rattle.octets.specs.Sets.{set_length, set_at};

use engine::graph::KINDS;
use engine::{Head, Marking, Relations, State, enabled};
use octets::edition::{WIDE, edition_for, edition_in};
use octets::number::LENGTH as NUMBER;
use octets::set::length;
use octets::{byte_at, number_at, set_at};
use sets::activity::WORD;
use sets::{Activity, Set};

// The two letters that a file opens with; the edition comes after them.
pub const LETTERS: [u8; 2] = *b"BG";

// How many relations: conditions, responses, includes, excludes.
pub const RELATIONS: usize = KINDS as usize;

// Where A stands, then the events.
pub const ACTIVITIES: usize = 3;

pub const EVENTS: usize = 4;

// The bytes of an entry: an offset and a number of rows.
pub const ENTRY: usize = 2 * NUMBER;

// Whether a file has wide sets (02, 10/12).
pub fn is_wide(bytes: &[u8]) -> bool
    ensures { result ≡ wide_in bytes.now }
{
    edition_in(bytes) == WIDE
}

// Whether the file of a graph with so many activities has.
pub fn wide_for(activities: u8) -> bool
    ensures { result ≡ wide_for activities }
{
    edition_for(activities) == WIDE
}

// The greatest number of rows of a relation, whatever A is. The activities that a form has a bit for are below it: no other has a row in the file, so the
// loops over the rows end there.
pub(crate) fn most_rows(wide: bool) -> u8
    ensures value { result ≡ most_rows wide }
    ensures upper_bound { result ≤ width }
{
    if wide { Activity::LIMIT } else { WORD }
}

// Where the entries begin: after the events and the marking.
pub(crate) fn entries_place(wide: bool) -> usize
    ensures value { result ≡ entries_place wide }
    ensures upper_bound { result ≤ 68 }
{
    EVENTS + 4 * length(wide)
}

// The bytes before the first row.
pub(crate) fn head_length(wide: bool) -> usize
    ensures value { result ≡ head_length wide }
    ensures upper_bound { result ≤ 84 }
{
    entries_place(wide) + ENTRY * RELATIONS
}

// The bytes of so many rows: a key and a set each. No relation of a file says more than 65,535 rows.
pub(crate) fn rows_length(wide: bool, n: usize) -> usize
    requires { n ≤ 65536 * relation_count }
    ensures { result ≡ rows_length wide n }
{
    (1 + length(wide)) * n
}

// Where row k stands.
pub(crate) fn row_place(wide: bool, k: usize) -> usize
    requires { k ≤ 65536 * relation_count }
    ensures { result ≡ head_length wide + rows_length wide k }
{
    head_length(wide) + rows_length(wide, k)
}

// The set at a place whose bytes are there. It is read from a part of just its length: then the compiler sees that there is room, and asks for it at no row.
pub(crate) fn set_in(bytes: &[u8], at: usize, wide: bool) -> Set
    requires { at + set_length wide ≤ length bytes.now }
    ensures { result ≡ set_at wide bytes.now at }
{
    let end = at + length(wide);
    set_at(&bytes[at..end], 0, wide)
}

// A number whose bytes are there, in the same way.
pub(crate) fn number_in(bytes: &[u8], at: usize) -> u16
    requires { at + number_length ≤ length bytes.now }
    ensures { result ≡ number_at number_length bytes.now at }
{
    let end = at + NUMBER;
    number_at(&bytes[at..end], 0)
}

// What a file holds of a marking, from a place on: executed, pending, included. A set whose bytes are not there is empty.
fn state_at(bytes: &[u8], at: usize, wide: bool) -> State
    requires { at + state_length wide < 2 ^ 64 }
    ensures { result ≡ state_at wide bytes.now at }
{
    let set = length(wide);
    let executed = set_at(bytes, at, wide);
    let pending = set_at(bytes, at + set, wide);
    let included = set_at(bytes, at + 2 * set, wide);
    State::of(executed, pending, included)
}

pub(crate) fn state_in(bytes: &[u8]) -> State
    ensures { result ≡ state_in bytes.now }
{
    let wide = is_wide(bytes);
    state_at(bytes, EVENTS + length(wide), wide)
}

// A marking by itself, from a place on: the enabled activities too.
pub(crate) fn marking_at(bytes: &[u8], at: usize, wide: bool) -> Marking
    requires { at + marking_length wide ≤ length bytes.now }
    ensures { result ≡ marking_at wide bytes.now at }
{
    Marking {
        state: state_at(bytes, at, wide),
        enabled: set_at(bytes, at + 3 * length(wide), wide),
    }
}

// A, the events and such a marking from a place on.
pub(crate) fn head_at(bytes: &[u8], at: usize, wide: bool) -> Head
    requires { at + lone_head_length wide ≤ length bytes.now }
    ensures { result ≡ head_at wide bytes.now at }
{
    Head {
        activities: bytes[at],
        events: set_at(bytes, at + 1, wide),
        opening: marking_at(bytes, at + 1 + length(wide), wide),
    }
}

// The head of a file whose relations have been read: its set of enabled activities follows from them.
pub(crate) fn head_in(bytes: &[u8], relations: &Relations) -> Head
    ensures { result ≡ head_in bytes.now relations.now }
{
    let events = set_at(bytes, EVENTS, is_wide(bytes));
    let state = state_in(bytes);
    Head {
        activities: byte_at(bytes, ACTIVITIES),
        events,
        opening: enabled::marked(events, relations, state),
    }
}
