// What a caller lends, and how many bytes it has: by the edition of the file that goes with it, or by the A of the head where there is no
// file (02, 10/12). So for A up to 64 they are those of before. Each function here is one call, and says whose bytes tell the form.
ghost use Rattle.std.specs.Prelude.{◌≡◌};
ghost use Rattle.octets.specs.Editions.{wide_in};
ghost use Rattle.graphfile.specs.Heads.{lone_head_length, wide_head};
ghost use Rattle.graphfile.specs.Markings.{marking_length, marking_from};
ghost use Rattle.desk.specs.Places.{table_length};

use engine::Marking;
use graphfile::{head, is_wide, marking, wide_for};
use octets::byte_at;

// The bytes of a marking beside a file: 32, or 64.
pub(crate) fn marking_room(file: &[u8]) -> usize
    ensures { result ≡ marking_length (wide_in file.now) }
{
    marking::length(is_wide(file))
}

pub(crate) fn marking_beside<'a>(file: &'a [u8], lent: &'a [u8]) -> Marking
    ensures { result ≡ marking_from (wide_in file.now) lent.now }
{
    marking::read_marking(lent, is_wide(file))
}

// The bytes of a desk's table beside a file: 1,056, or 2,080.
pub(crate) fn table_room(file: &[u8]) -> usize
    ensures { result ≡ table_length (wide_in file.now) }
{
    desk::table::length(is_wide(file))
}

// Whether a head and the marking beside it have wide sets.
pub(crate) fn is_wide_head(head: &[u8]) -> bool
    ensures { result ≡ wide_head head.now }
{
    wide_for(byte_at(head, 0))
}

// The bytes of a head: 41, or 81.
pub(crate) fn head_room(head: &[u8]) -> usize
    ensures { result ≡ lone_head_length (wide_head head.now) }
{
    head::length(is_wide_head(head))
}

// The bytes of a marking beside a head.
pub(crate) fn room_beside_head(head: &[u8]) -> usize
    ensures { result ≡ marking_length (wide_head head.now) }
{
    marking::length(is_wide_head(head))
}

pub(crate) fn marking_beside_head<'a>(head: &'a [u8], lent: &'a [u8]) -> Marking
    ensures { result ≡ marking_from (wide_head head.now) lent.now }
{
    marking::read_marking(lent, is_wide_head(head))
}
