// The editions of both files: 1 for A up to 64, 2 for 65 to 128 (02, 10/12).
ghost use Rattle.std.specs.Prelude.{◌≡◌};
ghost use Rattle.octets.specs.Editions.{edition_for, edition_in, opens_file, beyond};

use crate::number::byte_at;
use crate::opening::opens_with;
use sets::Activity;
use sets::activity::WORD;

// The bytes themselves and no enum: `edition_in` gives, and `is_beyond` takes, whatever byte stands in a file (docs/STATEMENTS.md).
pub const NARROW: u8 = 1;

pub const WIDE: u8 = 2;

// Where the edition stands: after the two letters.
const PLACE: usize = 2;

// The edition that a file with so many activities has.
pub fn edition_for(activities: u8) -> u8
    ensures { result ≡ edition_for activities }
{
    if WORD < activities {
        return WIDE;
    }
    NARROW
}

// The edition that the bytes say; 0 where they end before it.
pub fn edition_in(bytes: &[u8]) -> u8
    ensures { result ≡ edition_in bytes.now }
{
    byte_at(bytes, PLACE)
}

// Whether the bytes open with the letters, then with an edition that there is.
pub fn opens_file<'a>(letters: &'a [u8], bytes: &'a [u8]) -> bool
    ensures { result ≡ opens_file letters.now bytes.now }
{
    if !opens_with(letters, bytes) {
        return false;
    }
    let edition = edition_in(bytes);
    if edition == NARROW {
        return true;
    }
    edition == WIDE
}

// Whether A is too great, or the edition another than the one for it.
pub fn is_beyond(edition: u8, activities: u8) -> bool
    ensures { result ≡ beyond edition activities }
{
    if Activity::LIMIT < activities {
        return true;
    }
    edition != edition_for(activities)
}
