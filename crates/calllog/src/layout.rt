// Where a log file keeps what (01, "Sizes" and "Log"). Of the head, bytes that are missing read as 0.
ghost use Rattle.std.specs.Prelude.{◌≡◌, ◌+◌, ◌≤◌, ◌<◌, length};
ghost use Rattle.octets.specs.Numbers.{number_at, number_length};
ghost use Rattle.calllog.specs.Layout.{activities_in, traces_in, offset_at, length_at, bodies_start};

use octets::number::LENGTH as NUMBER;
use octets::{byte_at, number_at};
use sets::Place;

// The two letters that a log opens with; the edition comes after them.
pub const LETTERS: [u8; 2] = *b"BL";

// The greatest T, length of a trace and number of events.
pub const MOST_TRACES: u16 = 1024;

pub const LONGEST_TRACE: u16 = Place::LIMIT as u16;

pub const MOST_EVENTS: u32 = 32768;

// How many bytes stand before the entries, and how many an entry has.
pub const HEAD_SIZE: usize = TRACES_AT + NUMBER;

pub const ENTRY_SIZE: usize = 2 * NUMBER;

// Where A and T stand, and an entry's length within it.
const ACTIVITIES_AT: usize = 3;

const TRACES_AT: usize = 4;

const LENGTH_AT: usize = NUMBER;

// A.
pub fn activities(bytes: &[u8]) -> u8
    ensures { result ≡ activities_in bytes.now }
{
    byte_at(bytes, ACTIVITIES_AT)
}

// T.
pub fn traces(bytes: &[u8]) -> u16
    ensures { result ≡ traces_in bytes.now }
{
    number_at(bytes, TRACES_AT)
}

// Where the first body byte stands.
pub fn bodies_start(bytes: &[u8]) -> u32
    ensures { result ≡ bodies_start bytes.now }
{
    let t = traces(bytes);
    (HEAD_SIZE + ENTRY_SIZE * (t as usize)) as u32
}

// Bytes that have all of their entries: a walk over these looks at each without asking again.
#[derive(Clone, Copy)]
pub(crate) struct Entries<'a> {
    pub(crate) bytes: &'a [u8],
    ghost whole: { bodies_start bytes.now ≤ length bytes.now },
}

impl Entries<'_> {
    // The offset of entry k.
    pub(crate) fn offset(&self, k: u16) -> u16
        requires { k < traces_in self.now.bytes.now }
        ensures { result ≡ offset_at self.now.bytes.now k }
    {
        let entry = HEAD_SIZE + ENTRY_SIZE * (k as usize);
        present_number(self.bytes, entry)
    }

    // The length of entry k.
    pub(crate) fn length(&self, k: u16) -> u16
        requires { k < traces_in self.now.bytes.now }
        ensures { result ≡ length_at self.now.bytes.now k }
    {
        let entry = HEAD_SIZE + ENTRY_SIZE * (k as usize);
        present_number(self.bytes, entry + LENGTH_AT)
    }
}

// A number whose bytes are there: judging looks at every entry, and asks once for all of them.
fn present_number(bytes: &[u8], i: usize) -> u16
    requires { i + 1 < length bytes.now }
    ensures { result ≡ number_at number_length bytes.now i }
{
    u16::from_le_bytes([bytes[i], bytes[i + 1]])
}
