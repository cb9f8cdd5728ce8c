// The table of places: each has one byte, 0 where the place is free, and then its marking's bytes, in the form that the file of the graph has
// (02, 10/12). So a table of zeros is a fresh desk.
ghost use Rattle.std.specs.Prelude.{◌≡◌, ◌≤◌, ◌<◌, length, MatchOption};
ghost use Rattle.std.specs.Bool.{then_some};
ghost use Rattle.desk.specs.Places.{place_count, place_length, place_start, table_length, is_open, marking_at_place, with_marking, with_place, free_place};

use engine::Marking;
use graphfile::marking;

// How many places there are.
pub const PLACES: usize = 32;

// What a place's first byte is where it is free, and what open puts there.
pub const FREE: u8 = 0;

pub const TAKEN: u8 = 1;

// Lent bytes that have all places, to be read; `wide` says which form they are in.
#[derive(Clone, Copy)]
pub(crate) struct Table<'a> {
    pub(crate) bytes: &'a [u8],
    pub(crate) wide: bool,
    ghost whole: { table_length wide ≤ length bytes.now },
}

// How many bytes a place has: 33, or 65.
fn place_length(wide: bool) -> usize
    ensures { result ≡ place_length wide }
{
    1 + marking::length(wide)
}

// How many bytes the table has: 1,056, and 2,080 where the file of its graph has wide sets.
pub fn length(wide: bool) -> usize
    ensures { result ≡ table_length wide }
{
    place_length(wide) * PLACES
}

// Where a place begins.
fn start(place: usize, wide: bool) -> usize
    requires { place < place_count }
    ensures { result ≡ place_start wide place }
{
    place_length(wide) * place
}

impl<'a> Table<'a> {
    // The table in lent bytes; none where they are too few.
    pub(crate) fn over(bytes: &'a [u8], wide: bool) -> Option<Table<'a>>
        ensures { MatchOption result (length bytes.now < table_length wide) (λ t. (t.bytes.now ≡ bytes.now) × (t.wide ≡ wide)) }
    {
        if bytes.len() < length(wide) {
            return None;
        }
        Some(Table { bytes, wide })
    }

    // The marking at a place, which may be free.
    pub(crate) fn marking_at(&self, place: usize) -> Marking
        requires { place < place_count }
        ensures { result ≡ marking_at_place self.now.wide self.now.bytes.now place }
    {
        marking::read_marking_at(self.bytes, start(place, self.wide) + 1, self.wide)
    }

    // Whether a place is open; no where there is no such place.
    pub(crate) fn is_open(&self, place: usize) -> bool
        ensures { result ≡ is_open self.now.wide self.now.bytes.now place }
    {
        if PLACES <= place {
            return false;
        }
        self.bytes[start(place, self.wide)] != FREE
    }

    // The marking of the call at a place; none where there is no such place, or no call.
    pub(crate) fn call_at(&self, place: usize) -> Option<Marking>
        ensures { result ≡ then_some (is_open self.now.wide self.now.bytes.now place) (marking_at_place self.now.wide self.now.bytes.now place) }
    {
        if !self.is_open(place) {
            return None;
        }
        Some(self.marking_at(place))
    }

    // The lowest place that is free.
    pub(crate) fn lowest_free(&self) -> Option<usize>
        ensures { result ≡ free_place (is_open self.now.wide self.now.bytes.now) }
    {
        for place in 0..PLACES {
            if !self.is_open(place) {
                return Some(place);
            }
        }
        None
    }
}

// Puts down the marking at a place. The bytes are lent to be written and no `Table`: of a struct that holds a `&mut` the checker doesn't tell what
// the bytes are when it is given back.
pub(crate) fn put_marking(bytes: &mut [u8], place: usize, m: Marking, wide: bool)
    requires { (table_length wide ≤ length bytes.old) × (place < place_count) }
    ensures { bytes.new ≡ with_marking wide bytes.old place m }
{
    marking::write_marking_at(m, bytes, start(place, wide) + 1, wide);
}

// Puts down whether a place is open, and its marking.
pub(crate) fn put_place(bytes: &mut [u8], place: usize, first: u8, m: Marking, wide: bool)
    requires { (table_length wide ≤ length bytes.old) × (place < place_count) }
    ensures { bytes.new ≡ with_place wide bytes.old place first m }
{
    bytes[start(place, wide)] = first;
    put_marking(bytes, place, m, wide);
}
