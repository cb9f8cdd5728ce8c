// A marking by itself, in four sets of bytes: executed, pending, included, as in a graph file, and enabled (02, 6/12). For callers that keep markings in bytes.
ghost use Rattle.std.specs.Prelude.{◌≡◌, ◌+◌, ◌≤◌, length};
ghost use Rattle.std.proofs.lemmas.List.Edits.{sets};
ghost use Rattle.graphfile.specs.Markings.{marking_length, marking_bytes, marking_held, marking_put, marking_from, marking_into};

use crate::{layout, writer};
use engine::Marking;
use octets::room::too_few;
use octets::{put_set, set};

// How many bytes a marking has: 32, and 64 where the file of its graph has wide sets (02, 10/12).
pub fn length(wide: bool) -> usize
    ensures { result ≡ marking_length wide }
{
    4 * set::length(wide)
}

// The marking in the bytes from a place on; the empty one where there are too few.
pub fn read_marking_at(bytes: &[u8], at: usize, wide: bool) -> Marking
    ensures { result ≡ marking_held wide bytes.now at }
{
    if too_few(bytes.len(), at, length(wide)) {
        return Marking::EMPTY;
    }
    layout::marking_at(bytes, at, wide)
}

fn put_marking(out: &mut [u8], at: usize, m: Marking, wide: bool)
    requires { at + marking_length wide ≤ length out.old }
    ensures { out.new ≡ sets out.old at (marking_bytes wide m) }
{
    writer::put_state(out, at, m.state, wide);
    put_set(out, at + 3 * set::length(wide), m.enabled, wide);
}

// Puts a marking into the bytes from a place on; where there are too few, nothing changes.
pub fn write_marking_at(m: Marking, out: &mut [u8], at: usize, wide: bool)
    ensures { out.new ≡ marking_put wide m out.old at }
{
    if !too_few(out.len(), at, length(wide)) {
        put_marking(out, at, m, wide);
    }
}

// The marking in the first bytes.
pub fn read_marking(bytes: &[u8], wide: bool) -> Marking
    ensures { result ≡ marking_from wide bytes.now }
{
    read_marking_at(bytes, 0, wide)
}

// Puts a marking into the first bytes.
pub fn write_marking(m: Marking, out: &mut [u8], wide: bool)
    ensures { out.new ≡ marking_into wide m out.old }
{
    write_marking_at(m, out, 0, wide);
}
