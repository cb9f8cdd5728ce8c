// How many bytes are left from a place on.
ghost use Rattle.std.specs.Prelude.{◌≡◌, ◌+◌, ltb};

// Whether fewer than n of so many bytes are left from a place on, whatever the place.
pub fn too_few(length: usize, at: usize, n: usize) -> bool
    ensures { result ≡ ltb length (at + n) }
{
    if length < n {
        return true;
    }
    length - n < at
}
