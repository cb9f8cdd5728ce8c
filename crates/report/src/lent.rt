// What a caller lends, by the log's edition: 1 is for A up to 64, 2 for 65 to 128 (02, 10/12).
ghost use Rattle.std.specs.Prelude.{◌≡◌};
ghost use Rattle.report.specs.Lent.{most_in};
ghost use Rattle.report.specs.Listing.{longest_listing};

use octets::edition;
use sets::Activity;
use sets::activity::WORD;

// No listing of a log of edition 2 has more bytes, and none of another.
pub const LONGEST: usize = 671799;

pub const NARROW_LONGEST: usize = 147506;

// How many activities the log may have.
pub(crate) fn most_in(log: &[u8]) -> u8
    ensures { result ≡ most_in log.now }
{
    if edition::edition_in(log) == edition::WIDE {
        return Activity::LIMIT;
    }
    WORD
}

// How many bytes are always enough for its listing.
pub(crate) fn longest_in(log: &[u8]) -> usize
    ensures { result ≡ longest_listing log.now }
{
    if edition::edition_in(log) == edition::WIDE {
        return LONGEST;
    }
    NARROW_LONGEST
}
