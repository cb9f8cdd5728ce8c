// A pair of a relation, as one number: source × 256 + target (02, 1/12 and 10/12).
ghost use Rattle.std.specs.Prelude.{◌≡◌};
ghost use Rattle.plain.specs.Pairs.{source_of, target_of};

use sets::Activity;

// How many pairs a list may have.
pub const LIMIT: usize = 16384;

pub(crate) fn source(pair: u16) -> Activity
    ensures { result.0 ≡ source_of pair }
{
    Activity((pair / 256) as u8)
}

pub(crate) fn target(pair: u16) -> Activity
    ensures { result.0 ≡ target_of pair }
{
    Activity((pair % 256) as u8)
}
