// The passes over one trace that fill the tally. Each puts down, in the rows of every place's activity, what its past or its rest
// says; `seen` and `after` are the sets of what stands before and after the place. The form is a const parameter: the compiler drops the
// second word of a set only in a loop that is made for the narrow form alone.
ghost use Rattle.std.specs.Prelude.{◌≡◌, [], ◌∷◌, ◌++◌};
ghost use Rattle.sets.specs.Members.{those};
ghost use Rattle.sets.specs.Tests.{◌and◌};
ghost use Rattle.rules.specs.Traces.{◌has◌};
ghost use Rattle.tally.specs.Passes.{forward, backward, reaches, Knows};
ghost use Rattle.tally.specs.Tallies.{note_past_in, note_rest_in, past_by, place_by, rest_by};

use crate::form::{holds, in_form};
use crate::log::{BEFORE, FOLLOWED, LATER, Tally, UNANSWERED, UNCHAINED, UNPRECEDED};
use crate::look_back::{Blocks, Past};
use sets::{Activity, Set, tables};

// One place: what was seen before it, what was not, and what does not stand directly before it.
fn note_past<const WIDE: bool>(e: Activity, seen: Set, last: Set, tally: &mut Tally)
    ensures { tally.new ≡ past_by WIDE tally.old e.0 seen last }
{
    tables::join(tally, BEFORE, e, in_form(seen, WIDE));
    tables::join(tally, UNPRECEDED, e, in_form(seen.complement(), WIDE));
    tables::join(tally, UNCHAINED, e, in_form(last.complement(), WIDE));
}

// One place of the forward pass: what its past says, of what the form can hold. Its block knows the place then. The block is known in either
// case, and said twice, so that in the narrow form the compiler sees there how small e is.
fn note_place<const WIDE: bool>(
    past: &[u8],
    e: Activity,
    seen: Set,
    last: Set,
    blocks: &mut Blocks,
    tally: &mut Tally,
)
    requires { Knows blocks.old.rows past.now }
    ensures blocks_after { Knows blocks.new.rows (past.now ++ e.0 ∷ []) }
    ensures tally_after { tally.new ≡ place_by WIDE tally.old e.0 past.now seen last }
{
    if holds(e, WIDE) {
        note_past::<WIDE>(e, seen, last, tally);
        let before = Past {
            places: past,
            blocks,
        };
        before.note_since::<WIDE>(e, seen, tally);
        blocks.put_down(past, e);
    } else {
        blocks.put_down(past, e);
    }
}

// From the first place to the last, looking back from a repeat. The rows of its blocks are lent empty and left empty. It gives the set of what
// stands in the trace, as far as the form holds it.
pub(crate) fn forward<const WIDE: bool>(trace: &[u8], blocks: &mut Blocks, tally: &mut Tally) -> Set
    requires { Knows blocks.old.rows [] }
    ensures value { result ≡ those (λ x. reaches WIDE x and trace.now has x) }
    ensures blocks_after { Knows blocks.new.rows [] }
    ensures tally_after { tally.new ≡ forward (note_past_in WIDE) tally.old [] trace.now }
{
    let mut seen = Set::EMPTY;
    let mut last = Set::EMPTY;
    for (i, &e) in trace.iter().enumerate() {
        let e = Activity(e);
        note_place::<WIDE>(&trace[0..i], e, seen, last, blocks, tally);
        last = Set::one(e);
        seen = in_form(seen.union(last), WIDE);
    }
    blocks.take_up(trace);
    seen
}

// One place: what comes after it, what does not, and what comes directly after it.
fn note_rest<const WIDE: bool>(e: Activity, after: Set, next: Set, tally: &mut Tally)
    ensures { tally.new ≡ rest_by WIDE tally.old e.0 after next }
{
    if !holds(e, WIDE) {
        return;
    }
    tables::join(tally, LATER, e, in_form(after, WIDE));
    tables::join(tally, UNANSWERED, e, in_form(after.complement(), WIDE));
    tables::join(tally, FOLLOWED, e, in_form(next, WIDE));
}

// From the last place to the first.
pub(crate) fn backward<const WIDE: bool>(trace: &[u8], tally: &mut Tally)
    ensures { tally.new ≡ backward (note_rest_in WIDE) tally.old [] trace.now }
{
    let mut after = Set::EMPTY;
    let mut next = Set::EMPTY;
    for &e in trace.iter().rev() {
        let e = Activity(e);
        note_rest::<WIDE>(e, after, next, tally);
        next = Set::one(e);
        after = in_form(after.union(next), WIDE);
    }
}
