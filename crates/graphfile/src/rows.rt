// The rows of a relation in a file that has them: the key and the set of each.
ghost use Rattle.std.specs.Prelude.{◌≡◌, ◌+◌, ◌*◌, ◌≤◌, ◌<◌, length};
ghost use Rattle.std.specs.Coded.{Coded-set};
ghost use Rattle.engine.specs.Relations.{relation_count};
ghost use Rattle.octets.specs.Editions.{wide_in};
ghost use Rattle.graphfile.specs.Layout.{events_in, row_place, key_in, row_in};
ghost use Rattle.graphfile.specs.Refusals.{rises};

use crate::layout;
use sets::Set;

#[derive(Clone, Copy)]
pub(crate) struct Rows<'a> {
    pub(crate) bytes: &'a [u8],
    pub(crate) wide: bool,
    pub(crate) events: Set,
    pub(crate) first: usize,
    pub(crate) count: usize,
    ghost form: { wide ≡ wide_in bytes.now },
    ghost events_value: { events ≡ events_in bytes.now } by { Coded-set events-code events (events_in bytes.now) },
    ghost few: { first + count ≤ 65536 * relation_count },
    ghost there: { row_place bytes.now (first + count) ≤ length bytes.now },
}

impl<'a> Rows<'a> {
    // The same with the form written out, so that the compiler makes a loop over the rows for each form and asks for it at no row.
    pub(crate) fn in_form<const WIDE: bool>(&self) -> Rows<'a>
        requires { WIDE ≡ self.now.wide }
        ensures bytes { result.bytes.now ≡ self.now.bytes.now }
        ensures first { result.first ≡ self.now.first }
        ensures count { result.count ≡ self.now.count }
    {
        Rows {
            bytes: self.bytes,
            wide: WIDE,
            events: self.events,
            first: self.first,
            count: self.count,
        }
    }

    // The key of row j.
    pub(crate) fn key(&self, j: usize) -> u8
        requires { j < self.now.count }
        ensures { result ≡ key_in self.now.bytes.now (self.now.first + j) }
    {
        self.bytes[layout::row_place(self.wide, self.first + j)]
    }

    pub(crate) fn set(&self, j: usize) -> Set
        requires { j < self.now.count }
        ensures { result ≡ row_in self.now.bytes.now (self.now.first + j) }
    {
        let at = layout::row_place(self.wide, self.first + j) + 1;
        layout::set_in(self.bytes, at, self.wide)
    }

    // Whether row j has a key above the one before; the first has none before it.
    pub(crate) fn rises(&self, j: usize) -> bool
        requires { j < self.now.count }
        ensures { result ≡ rises self.now.bytes.now self.now.first j }
    {
        if j == 0 {
            return true;
        }
        let before = self.key(j - 1);
        before < self.key(j)
    }
}
