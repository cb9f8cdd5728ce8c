// Numbers as bytes, little-endian (01, "Sizes"). A number of a file has two of them; the inner functions take any width, for sets have more.
ghost use Rattle.std.specs.Prelude.{◌≡◌, ◌+◌, ◌^◌, ◌≤◌, ◌<◌, length, get_or};
ghost use Rattle.std.proofs.lemmas.List.Edits.{sets};
ghost use Rattle.octets.specs.Numbers.{little_endian, number_at, number_length, number_put};

use crate::room;

// How many bytes a number of a file has.
pub const LENGTH: usize = 2;

// The number in n bytes from a place on.
pub(crate) fn value_at(bytes: &[u8], at: usize, n: usize) -> u64
    requires { (n ≤ 8) × (at + n ≤ length bytes.now) }
    ensures value { result ≡ number_at n bytes.now at }
    ensures upper_bound { result < 256 ^ n }
{
    let mut value: u64 = 0;
    for i in (0..n).rev() {
        value = value * 256 + u64::from(bytes[at + i]);
    }
    value
}

// Stores a number into n bytes from a place on.
pub(crate) fn put_value(out: &mut [u8], at: usize, n: usize, x: u64)
    requires { at + n ≤ length out.old }
    ensures { out.new ≡ sets out.old at (little_endian n x) }
{
    let mut rest = x;
    for i in 0..n {
        out[at + i] = (rest % 256) as u8;
        rest /= 256;
    }
}

// The byte at a place; 0 where there is none.
pub fn byte_at(bytes: &[u8], at: usize) -> u8
    ensures { result ≡ get_or bytes.now at 0 }
{
    bytes.get(at).copied().unwrap_or(0)
}

// The number in the bytes from a place on, where a byte that is missing counts as 0.
pub fn number_at(bytes: &[u8], at: usize) -> u16
    ensures { result ≡ number_at number_length bytes.now at }
{
    if room::too_few(bytes.len(), at, LENGTH) {
        return u16::from(byte_at(bytes, at));
    }
    value_at(bytes, at, LENGTH) as u16
}

// Puts a number into the bytes from a place on; where there are too few, nothing changes.
pub fn put_number(out: &mut [u8], at: usize, x: u16)
    ensures { out.new ≡ number_put out.old at x }
{
    if !room::too_few(out.len(), at, LENGTH) {
        put_value(out, at, LENGTH, u64::from(x));
    }
}
