// What stands where in a tally (docs/FORMATS.md): sets of 8 bytes, one after another; byte 0, of set 0, is A.
ghost use Rattle.std.specs.Prelude.{◌≡◌, ◌<◌};
ghost use Rattle.sets.specs.Members.{mem, those};
ghost use Rattle.months.specs.Layout.{row_set, pair_set, set_in};

use octets::set;
use sets::activity::WORD;
use sets::{Activity, Set};

// The greatest A of a tally, however many activities a set can hold; and how many rows a table has, and pairs an activity.
pub const LIMIT: u8 = WORD;

pub const WIDTH: usize = LIMIT as usize;

// How many sets there are, and how many bytes.
pub const SETS: usize = 4608;

pub const LENGTH: usize = SETS * set::NARROW;

// Where the events stand, the first row of the tables, the set after their last, and the first set of the pairs.
pub const EVENTS: usize = 1;

pub const FIRST_ROW: usize = 2;

pub const ROWS_END: usize = 450;

pub const FIRST_PAIR: usize = 512;

// How many tables there are.
pub const TABLES: u8 = 7;

// Row a of table k.
pub fn row(tally: &[u8], k: u8, a: Activity) -> Set
    ensures value { result ≡ set_in tally.now (row_set k a.0) }
    ensures result_value { those (mem result) ≡ result }
{
    octets::set_at(
        tally,
        set::NARROW * (FIRST_ROW + WIDTH * k as usize + a.0 as usize),
        false,
    )
}

// Which set has what stands between a u and a later s.
pub fn pair_set(u: Activity, s: Activity) -> usize
    ensures value { result ≡ pair_set u.0 s.0 }
    ensures upper_bound { result < 17152 }
{
    FIRST_PAIR + WIDTH * u.0 as usize + s.0 as usize
}

// What stands between a u and a later s.
pub fn between(tally: &[u8], u: Activity, s: Activity) -> Set
    ensures value { result ≡ set_in tally.now (pair_set u.0 s.0) }
    ensures result_value { those (mem result) ≡ result }
{
    octets::set_at(tally, set::NARROW * pair_set(u, s), false)
}
