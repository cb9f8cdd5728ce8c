// The includes of steps 3 and 6, put into a table that is lent. What step 6 lets in needs the pairs that never follow, so it is asked of
// the log in a pass of its own: over each trace from the first place to the last.
ghost use Rattle.std.specs.Prelude.{◌≡◌, cond, [], ℕ, ◌+◌, ◌<◌, eqb, ltb, length, get_or, set, drop};
ghost use Rattle.sets.specs.Tests.{◌and◌, ◌or◌, non};
ghost use Rattle.sets.specs.Members.{width, mem, those};
ghost use Rattle.sets.specs.Rows.{in_row, rows_of, turned};
ghost use Rattle.sets.specs.Tables.{with_table};
ghost use Rattle.rules.specs.Traces.{◌has◌};
ghost use Rattle.tally.specs.Passes.{gained, gains, forward, reaches, cut};
ghost use Rattle.miner.specs.Facts.{let_in, places_from};
ghost use Rattle.miner.specs.Stages.{chains_of, let_in_of, includes_in};
ghost use Rattle.miner.specs.Walks.{traces_of};

use crate::traces::Traces;
use engine::Relations;
use engine::graph::INCLUDES;
use rules::Profile;
use sets::activity::WIDTH;
use sets::{Activity, Place, Rows, Set, rows, tables};
use steps::relations;
use tally::{Tally, in_form, log};

// What was seen, with e.
pub(crate) fn and_then(seen: Set, e: Activity) -> Set
    ensures { result ≡ those (λ x. mem seen x or eqb x e.0) }
{
    seen.union(Set::one(e))
}

// A place of the trace for each activity, as a number.
pub type Places = [usize; WIDTH];

// Puts a place down as the activity's last so far; past the last activity nothing changes.
fn put_place(last: &mut Places, e: Activity, at: Place)
    ensures { last.new ≡ cond (ltb e.0 width) (set last.old e.0 at.0) last.old }
{
    let n = e.0 as usize;
    if n < WIDTH {
        last[n] = at.0;
    }
}

// What stands in the trace. `last` then has the last place of each of them.
pub fn last_places(trace: &[u8], last: &mut Places) -> Set
    ensures all { result ≡ those (λ x. trace.now has x) }
    ensures places { last.new ≡ places_from last.old 0 trace.now }
{
    let mut all = Set::EMPTY;
    for (i, &n) in trace.iter().enumerate() {
        let e = Activity(n);
        put_place(last, e, Place(i));
        all = and_then(all, e);
    }
    all
}

// What stands after a place of e, given what stands from it on: less e, where this is its last place. A set without a branch, since which
// place is the last is not foreseen.
fn left_after(after: Set, last: &Places, e: Activity, at: Place) -> Set
    ensures { result ≡ those (λ x. mem after x and non (eqb x e.0 and eqb (get_or last.now e.0 0) at.0)) }
{
    let n = e.0 as usize;
    if n < WIDTH {
        let gone = Set::one_if(last[n] == at.0, e);
        return after.difference(gone);
    }
    after
}

// One place of e: its row gains what comes later and is barred. Then what never directly follows e is barred too, as far as the form holds
// it.
fn let_in_here<const WIDE: bool>(
    e: Activity,
    after: Set,
    barred: Set,
    unfollowed: &Rows,
    out: &mut Rows,
) -> Set
    ensures row { out.new ≡ gained out.old e.0 (λ x. mem after x and mem barred x) }
    ensures next { result ≡ those (λ x. mem barred x or reaches WIDE x and in_row unfollowed.now e.0 x) }
{
    let back = after.intersection(barred);
    rows::join(out, e, back);
    let never = in_form(rows::row(unfollowed, e), WIDE);
    barred.union(never)
}

// The forward pass, with the last places known. `barred` is what never directly follows something that was seen.
fn let_in_along<'a, const WIDE: bool>(
    trace: &'a [u8],
    unfollowed: &'a Rows,
    last: &'a Places,
    all: Set,
    out: &mut Rows,
)
    requires all_value { all ≡ those (λ x. trace.now has x) }
    requires by_index { (i : ℕ) → i < length trace.now → get_or trace.now i 0 < width → eqb (get_or last.now (get_or trace.now i 0) 0) i
        ≡ non (drop (i + 1) trace.now has get_or trace.now i 0) }
    ensures { out.new ≡ forward (gains (cut WIDE (let_in unfollowed.now))) out.old [] trace.now }
{
    let mut after = all;
    let mut barred = Set::EMPTY;
    for (i, &n) in trace.iter().enumerate() {
        let e = Activity(n);
        after = left_after(after, last, e, Place(i));
        barred = let_in_here::<WIDE>(e, after, barred, unfollowed, out);
    }
}

// Step 6: the row of each event gains what comes later in the trace and never directly follows something that stands before the event;
// row s of `unfollowed` has what never directly follows s.
fn let_in_trace<'a, const WIDE: bool>(trace: &'a [u8], unfollowed: &'a Rows, out: &mut Rows)
    ensures { out.new ≡ forward (gains (cut WIDE (let_in unfollowed.now))) out.old [] trace.now }
{
    let mut last = [0usize; WIDTH];
    let all = last_places(trace, &mut last);
    let_in_along::<WIDE>(trace, unfollowed, &last, all, out);
}

// The same, of all traces.
fn let_in_log<const WIDE: bool>(traces: &Traces, unfollowed: &Rows, out: &mut Rows)
    ensures { out.new ≡ let_in_of WIDE unfollowed.now out.old (traces_of traces.now) }
{
    for k in 0..traces.count {
        let_in_trace::<WIDE>(traces.at(k), unfollowed, out);
    }
}

// Step 3: what a chain leads to, turned round.
fn includes_three(events: Set, tally: &Tally) -> Rows
    ensures { result ≡ rows_of (turned (chains_of events tally.now)) }
{
    let chains = relations::unbroken(events, tally, log::UNCHAINED);
    rows::turned(&chains)
}

// The includes after step 6, which asks the traces once more; the light profile leaves it out (02, 3/12).
pub(crate) fn put_six<const WIDE: bool>(
    traces: &Traces,
    events: Set,
    tally: &Tally,
    profile: Profile,
    out: &mut Relations,
)
    ensures { out.new ≡ with_table out.old 2 (includes_in WIDE profile events tally.now (traces_of traces.now)) }
{
    let mut includes = includes_three(events, tally);
    match profile {
        Profile::Full => {
            let never = relations::absent(events, tally, log::FOLLOWED);
            let_in_log::<WIDE>(traces, &never, &mut includes);
        }
        Profile::Light => {}
    }
    tables::put_rows(out, INCLUDES, &includes);
}
