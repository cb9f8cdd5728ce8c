// Looking back from a place of a trace for what stands since the last e. What stands in each eight places of the trace is kept as a row, so
// that eight places without an e are passed at once.
ghost use Rattle.std.specs.Prelude.{◌≡◌, [], ◌∷◌, ◌++◌, ◌≤◌, ◌<◌, length};
ghost use mathlib.Core.List.{reverse_aux};
ghost use Rattle.sets.specs.Tests.{◌and◌, non};
ghost use Rattle.sets.specs.Members.{width, mem, those, is_empty};
ghost use Rattle.sets.specs.Sizes.{longest_trace};
ghost use Rattle.tally.specs.Passes.{not_since, Knows, PassedTo};
ghost use Rattle.tally.specs.Tallies.{since_by};

use crate::form::in_form;
use crate::log::{Tally, UNALTERNATED};
use sets::activity::WIDTH;
use sets::{Activity, Place, Rows, Set, rows, tables};

// How many places a row is of.
const BLOCK: usize = 8;

// How many places have a row: at least as many as a trace has.
const PLACES: usize = WIDTH * BLOCK;

// What of `wanted` does not stand between the end of `past` and the last e in it, or its start. It looks back only while some
// of it is still wanted.
fn unmet(past: &[u8], e: Activity, wanted: Set) -> Set
    ensures { result ≡ those (λ x. mem wanted x and not_since e.0 (reverse_aux past.now []) [] x) }
{
    let mut left = wanted;
    for &x in past.iter().rev() {
        if left.is_empty() {
            return left;
        }
        left = left.difference(Set::one(Activity(x)));
        if x == e.0 {
            return left;
        }
    }
    left
}

// What stands in each eight places of a past: row j is of block j.
#[derive(Drop)]
pub(crate) struct Blocks {
    rows: Rows,
}

impl Blocks {
    // Of no place.
    pub(crate) fn empty() -> Blocks
        ensures { Knows result.rows [] }
    {
        Blocks {
            rows: rows::empty(),
        }
    }

    // One place more: its block gains e. Past the last row nothing changes.
    pub(crate) fn put_down(&mut self, past: &[u8], e: Activity)
        requires { Knows self.old.rows past.now }
        ensures { Knows self.new.rows (past.now ++ e.0 ∷ []) }
    {
        let at = past.len();
        if at < PLACES {
            rows::join(&mut self.rows, Activity((at / BLOCK) as u8), Set::one(e));
        }
    }

    // The rows that a trace put down are empty again: a short trace has few.
    pub(crate) fn take_up(&mut self, trace: &[u8])
        requires { Knows self.old.rows trace.now }
        ensures { Knows self.new.rows [] }
    {
        for j in 0..WIDTH {
            if trace.len() <= j * BLOCK {
                return;
            }
            rows::put(&mut self.rows, Activity(j as u8), Set::EMPTY);
        }
    }
}

// How far a look back has come: what is still wanted, and how many places are before it.
#[derive(Clone, Copy)]
struct Reached {
    left: Set,
    places: usize,
}

// Whether a block is passed: something is still wanted, and the last e does not stand in it.
fn is_passed(block: Set, e: Activity, left: Set) -> bool
    ensures { result ≡ (non (is_empty left) and non (mem block e.0)) }
{
    if left.is_empty() {
        return false;
    }
    !block.has(e)
}

// The past of a place, with blocks that know all of it.
#[derive(Clone, Copy)]
pub(crate) struct Past<'a> {
    pub(crate) places: &'a [u8],
    pub(crate) blocks: &'a Blocks,
    ghost known: { Knows blocks.now.rows places.now },
}

impl<'a> Past<'a> {
    // Back to a block that is not passed, or to the start.
    fn pass_blocks(self, e: Activity, wanted: Set) -> Reached
        requires places_le_longest_trace { length self.places.now ≤ longest_trace }
        requires e_lt_width { e.0 < width }
        ensures { PassedTo self.entry.places.now e.0 wanted result.left result.places }
    {
        let places = self.places.len();
        let mut left = wanted;
        for j in (0..places.div_ceil(BLOCK)).rev() {
            let block = rows::row(&self.blocks.rows, Activity(j as u8));
            if !is_passed(block, e, left) {
                return Reached {
                    left,
                    places: places.min((j + 1) * BLOCK),
                };
            }
            left = left.difference(block);
        }
        Reached { left, places: 0 }
    }

    // As `unmet`, by blocks first.
    fn unmet(self, e: Activity, wanted: Set) -> Set
        requires { e.0 < width }
        ensures { result ≡ those (λ x. mem wanted x and not_since e.0 (reverse_aux self.entry.places.now []) [] x) }
    {
        if Place::LIMIT < self.places.len() {
            return unmet(self.places, e, wanted);
        }
        let at = self.pass_blocks(e, wanted);
        unmet(&self.places[0..at.places], e, at.left)
    }

    // One place: what does not stand since the last e. At the first e of a trace that is what was not seen. A row that has all can gain
    // nothing, and that is the first question, since the answer is mostly the same.
    pub(crate) fn note_since<const WIDE: bool>(self, e: Activity, seen: Set, tally: &mut Tally)
        ensures { tally.new ≡ since_by WIDE tally.old e.0 self.entry.places.now seen }
    {
        let wanted = in_form(tables::row(tally, UNALTERNATED, e).complement(), WIDE);
        if wanted.is_empty() {
            return;
        }
        if seen.has(e) {
            let left = self.unmet(e, wanted);
            tables::join(tally, UNALTERNATED, e, left);
        } else {
            tables::join(tally, UNALTERNATED, e, in_form(seen.complement(), WIDE));
        }
    }
}
