// Two tallies in one (02, 12/12): into the first, so that a year needs one buffer beside the month at hand.
ghost use Rattle.std.specs.Prelude.{◌≡◌, length};
ghost use Rattle.months.specs.Months.{join_answer, bytes_or, joined_of};

use crate::layout;
use sets::Answer;

// Byte by byte the bits of either.
fn join_bytes(bytes: &mut [u8], other: &[u8])
    requires { length bytes.old ≡ length other.now }
    ensures { bytes.new ≡ bytes_or bytes.old other.now }
{
    // Not over both at once: a proof knows nothing of what is written through a `zip` of `iter_mut`.
    for (i, &byte) in other.iter().enumerate() {
        bytes[i] |= byte;
    }
}

// The first tally gains what the other has. A is the larger of both.
pub fn join(tally: &mut [u8], other: &[u8]) -> Answer
    ensures value { result ≡ join_answer tally.old other.now }
    ensures tally_after { tally.new ≡ joined_of tally.old other.now }
{
    if tally.len() < layout::LENGTH {
        return Answer::BufferTooSmall;
    }
    if other.len() < layout::LENGTH {
        return Answer::BufferTooSmall;
    }
    let activities = tally[0].max(other[0]);
    if layout::LIMIT < activities {
        return Answer::AboveLimit;
    }
    join_bytes(&mut tally[..layout::LENGTH], &other[..layout::LENGTH]);
    tally[0] = activities;
    Answer::Done
}
