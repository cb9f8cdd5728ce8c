// A set as bytes: activity a is bit a % 8 of byte a / 8. Two forms: 8 bytes for activities below 64, and the wide one, 16 bytes, for all (02, 10/12).
// Nobody else knows how many bytes a set has, nor what a set is made of.
ghost use Rattle.std.specs.Prelude.{◌≡◌};
ghost use Rattle.octets.specs.Sets.{set_length, set_at, set_put};

use crate::number::{put_value, value_at};
use crate::room;
use sets::Set;
use sets::activity::{WIDTH, WORD};

// How many bytes a machine word has: the narrow form of a set.
pub const NARROW: usize = WORD as usize / 8;

// How many bytes a set has in its wide form.
pub const WIDE: usize = WIDTH / 8;

// How many bytes a set has.
pub fn length(wide: bool) -> usize
    ensures { result ≡ set_length wide }
{
    if wide {
        return WIDE;
    }
    NARROW
}

// The set in the bytes from a place on; the empty set where there are too few.
pub fn set_at(bytes: &[u8], at: usize, wide: bool) -> Set
    ensures { result ≡ set_at wide bytes.now at }
{
    if room::too_few(bytes.len(), at, length(wide)) {
        return Set::EMPTY;
    }
    let low = value_at(bytes, at, NARROW);
    if wide {
        return Set {
            low,
            high: value_at(bytes, at + NARROW, NARROW),
        };
    }
    Set { low, high: 0 }
}

// Puts a set into the bytes from a place on; where there are too few, nothing changes. A member that the form cannot hold is left out.
pub fn put_set(out: &mut [u8], at: usize, s: Set, wide: bool)
    ensures { out.new ≡ set_put wide out.old at s }
{
    if !room::too_few(out.len(), at, length(wide)) {
        put_value(out, at, NARROW, s.low);
        if wide {
            put_value(out, at + NARROW, NARROW, s.high);
        }
    }
}
