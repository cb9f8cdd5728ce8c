// Bytes, words and numbers, put one after another into a lent buffer.
ghost use Rattle.std.specs.Prelude.{◌≡◌, [], ◌∷◌, ◌++◌, ◌+◌, ◌≤◌, length};
ghost use Rattle.report.specs.Lines.{figures, decimal};
ghost use Rattle.report.specs.Puts.{Put, Room, Wrote, named};

// What stands between two words of a line, and at its end.
pub const SPACE: u8 = b' ';

pub const LINE_END: u8 = b'\n';

// A byte at a place: gives the place after it. The place is no page's here, nor below, since kept in memory it makes each figure slower.
#[inline]
fn put_byte(out: &mut [u8], at: usize, b: u8) -> usize
    requires { at + 1 ≤ length out.old }
    ensures { Put out.old at (b ∷ []) out.new result }
{
    out[at] = b;
    at + 1
}

// The last figures of a number, at most k of them.
fn put_figures(out: &mut [u8], at: usize, k: u8, n: usize) -> usize
    requires { at + length (figures k n) ≤ length out.old }
    ensures { Put out.old at (figures k n) out.new result }
{
    if k == 0 {
        return at;
    }
    let last = b'0' + (n % 10) as u8;
    if n < 10 {
        return put_byte(out, at, last);
    }
    let next = put_figures(out, at, k - 1, n / 10);
    put_byte(out, next, last)
}

// A lent buffer, and the place where the next byte goes.
#[derive(Drop)]
pub(crate) struct Page<'a> {
    out: &'a mut [u8],
    pub(crate) at: usize,
}

impl<'a> Page<'a> {
    pub(crate) fn new(out: &'a mut [u8]) -> Page<'a>
        ensures same_buffer { result.out.ghost_name ≡ out.entry.ghost_name }
        ensures bytes { result.out.now ≡ out.old }
        ensures place { result.at ≡ 0 }
    {
        Page { out, at: 0 }
    }

    // One byte.
    #[inline]
    pub(crate) fn byte(&mut self, b: u8)
        requires { Room self.old (b ∷ []) }
        ensures { Wrote self.old (b ∷ []) self.new }
    {
        self.out[self.at] = b;
        self.at += 1;
    }

    // A fixed byte string, byte by byte: most are of one byte, and a copy is slower for so few.
    #[inline]
    fn bytes(&mut self, word: &[u8])
        requires { Room self.old word.now }
        ensures { Wrote self.old word.now self.new }
    {
        for &b in word {
            self.byte(b);
        }
    }

    // A word, and the byte that ends it: a space, or the end of the line.
    #[inline]
    pub(crate) fn word(&mut self, word: &[u8], end: u8)
        requires { Room self.old (word.now ++ (end ∷ [])) }
        ensures { Wrote self.old (word.now ++ (end ∷ [])) self.new }
    {
        self.bytes(word);
        self.byte(end);
    }

    // A number in decimal, and the byte that ends it.
    #[inline]
    pub(crate) fn number(&mut self, n: usize, end: u8)
        requires { Room self.old (decimal n ++ (end ∷ [])) }
        ensures { Wrote self.old (decimal n ++ (end ∷ [])) self.new }
    {
        self.at = put_figures(self.out, self.at, 5, n);
        self.byte(end);
    }

    // A word, a space, a number, and the byte that ends it.
    #[inline]
    pub(crate) fn named(&mut self, word: &[u8], n: usize, end: u8)
        requires { Room self.old (named word.now n end) }
        ensures { Wrote self.old (named word.now n end) self.new }
    {
        self.word(word, SPACE);
        self.number(n, end);
    }
}
