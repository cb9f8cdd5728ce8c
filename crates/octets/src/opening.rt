// What a file opens with: two letters and the edition (01, "Two files, contents first").
ghost use Rattle.std.specs.Prelude.{◌≡◌};
ghost use Rattle.octets.specs.Opens.{opens_with};

// Whether the bytes open with the given ones; no where they are fewer.
pub fn opens_with<'a>(mark: &'a [u8], bytes: &'a [u8]) -> bool
    ensures { result ≡ opens_with mark.now bytes.now }
{
    bytes.starts_with(mark)
}
