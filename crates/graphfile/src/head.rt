// The head of a graph by itself, in bytes: A, events, executed, pending, included, as in a graph file from byte 3 on, and enabled. For
// callers that keep the relations elsewhere.
ghost use Rattle.std.specs.Prelude.{◌≡◌};
ghost use Rattle.graphfile.specs.Heads.{lone_head_length, head_from};

use crate::{layout, marking};
use engine::Head;
use octets::{byte_at, set};

// How many bytes a head has: 41, and 81 where A is above 64 (02, 10/12).
pub fn length(wide: bool) -> usize
    ensures { result ≡ lone_head_length wide }
{
    1 + set::length(wide) + marking::length(wide)
}

// The head in the first bytes; the empty one where there are too few.
pub fn read_head(bytes: &[u8]) -> Head
    ensures { result ≡ head_from bytes.now }
{
    let wide = layout::wide_for(byte_at(bytes, 0));
    if bytes.len() < length(wide) {
        return Head::EMPTY;
    }
    layout::head_at(bytes, 0, wide)
}
