// The sets of the pairs (02, 12/12): what stands between a u and a later s, trace by trace, from the first place to the last. A trace is cut at
// the first place of each activity, and gap j has what stands after cut j, up to the next and with it. So what stands since the first u are
// the gaps from its cut on. That is largest at the last s, so only there it is joined.
ghost use Rattle.std.specs.Prelude.{◌≡◌, false, ℕ, ◌+◌, ◌*◌, ◌≤◌, ◌<◌, eqb, ltb, length, get_or, drop};
ghost use Rattle.sets.specs.Tests.{◌and◌, ◌or◌, non};
ghost use Rattle.sets.specs.Members.{width, mem, those, no_set, count_below};
ghost use Rattle.sets.specs.Rows.{row_at};
ghost use Rattle.octets.specs.Sets.{set_length, set_put};
ghost use Rattle.rules.specs.Traces.{◌has◌, at_some};
ghost use Rattle.rules.specs.Mining.{between};
ghost use Rattle.tally.specs.Passes.{walked};
ghost use Rattle.months.specs.Layout.{tally_width, pair_set, set_in};
ghost use Rattle.months.specs.Pairs.{Gained, Kept, back_to, walk_back, widened, seen_with, firsts_with};

use crate::layout;
use miner::Places;
use octets::set;
use sets::activity::WIDTH;
use sets::{Activity, Place, Rows, Set, rows};

// What was seen of a trace, and how many activities that is.
#[derive(Clone, Copy)]
struct Seen {
    set: Set,
    count: usize,
}

// The set of u and s gains another.
fn join_pair(tally: &mut [u8], u: Activity, s: Activity, since: Set)
    ensures { tally.new ≡ set_put false tally.old (set_length false * pair_set u.0 s.0)
        (those (λ v. mem (set_in tally.old (pair_set u.0 s.0)) v or mem since v)) }
{
    let both = layout::between(tally, u, s).union(since);
    octets::put_set(tally, set::NARROW * layout::pair_set(u, s), both, false);
}

// Whether a place of s is its last, by the table of last places.
fn is_last(last: &Places, s: Activity, at: Place) -> bool
    ensures { result ≡ (ltb s.0 tally_width and eqb (get_or last.now s.0 0) at.0) }
{
    let n = s.0 as usize;
    if n < layout::WIDTH {
        return last[n] == at.0;
    }
    false
}

// A trace so far, cut at the first place of each activity: these activities, in that order, and after each what stands up to the next and
// with it.
#[derive(Drop)]
struct Cuts {
    seen: Seen,
    firsts: [u8; layout::WIDTH],
    gaps: Rows,
    ghost counted: { seen.count ≡ count_below tally_width (mem seen.set) },
    ghost kept: { Kept firsts gaps seen.count },
}

impl Cuts {
    fn gap(&self, j: usize) -> Set
        requires { j < tally_width }
        ensures { result ≡ row_at self.now.gaps j }
    {
        rows::row(&self.gaps, Activity(j as u8))
    }

    // From the latest first place back: what stands since then grows by the gap after it, and the set of that activity and s gains it.
    fn join_back(&self, tally: &mut [u8], s: Activity)
        requires { s.0 < tally_width }
        ensures { Gained tally.old (λ u x v. eqb x s.0
            and walk_back (back_to self.now.firsts self.now.seen.count) self.now.gaps (mem no_set) u v) tally.new }
    {
        let mut since = Set::EMPTY;
        for j in (0..self.seen.count).rev() {
            since = since.union(self.gap(j));
            join_pair(tally, Activity(self.firsts[j]), s, since);
        }
    }

    // At the last place of s.
    fn join_last(&self, tally: &mut [u8], last: &Places, at: Place, s: Activity)
        ensures { Gained tally.old (λ u x v. ltb s.0 tally_width and eqb (get_or last.now s.0 0) at.0 and (eqb x s.0
            and walk_back (back_to self.now.firsts self.now.seen.count) self.now.gaps (mem no_set) u v)) tally.new }
    {
        if is_last(last, s, at) {
            self.join_back(tally, s);
        }
    }

    // The gap after the latest first place gains e; there is none before the first.
    fn widen(&mut self, e: Activity)
        ensures now_gaps { self.new.gaps ≡ widened self.old.gaps self.old.seen.count e.0 }
        ensures same_seen { self.new.seen ≡ self.old.seen }
        ensures same_firsts { self.new.firsts ≡ self.old.firsts }
    {
        if 0 < self.seen.count {
            let latest = Activity((self.seen.count - 1) as u8);
            rows::join(&mut self.gaps, latest, Set::one(e));
        }
    }

    // One place of e. Where e was not seen, this is its first.
    fn note(&mut self, e: Activity)
        ensures now_gaps { self.new.gaps ≡ widened self.old.gaps self.old.seen.count e.0 }
        ensures now_seen { self.new.seen ≡ seen_with self.old.seen e.0 }
        ensures now_firsts { self.new.firsts ≡ firsts_with self.old.firsts self.old.seen e.0 }
    {
        let seen = self.seen;
        self.widen(e);
        if seen.set.has(e) {
            return;
        }
        if layout::LIMIT <= e.0 {
            return;
        }
        self.firsts[seen.count] = e.0;
        self.seen = Seen {
            set: seen.set.union(Set::one(e)),
            count: seen.count + 1,
        };
    }
}

// The pass, with the last places known.
fn note_along<'a>(trace: &'a [u8], last: &'a Places, tally: &mut [u8])
    requires { (i : ℕ) → i < length trace.now → get_or trace.now i 0 < width → eqb (get_or last.now (get_or trace.now i 0) 0) i
        ≡ non (drop (i + 1) trace.now has get_or trace.now i 0) }
    ensures { Gained tally.old (λ u s v. at_some v (λ past rest. past has u and rest has s) trace.now)
        tally.new }
{
    let mut cuts = Cuts {
        seen: Seen {
            set: Set::EMPTY,
            count: 0,
        },
        firsts: [0; layout::WIDTH],
        gaps: rows::empty(),
    };
    for (i, &activity) in trace.iter().enumerate() {
        let e = Activity(activity);
        cuts.join_last(tally, last, Place(i), e);
        cuts.note(e);
    }
}

fn note_trace(trace: &[u8], tally: &mut [u8])
    ensures { Gained tally.old (λ u s v. at_some v (λ past rest. past has u and rest has s) trace.now)
        tally.new }
{
    let mut last = [0usize; WIDTH];
    miner::last_places(trace, &mut last);
    note_along(trace, &last, tally);
}

// All traces: of two activities u and s, what stands between a u and a later s.
pub fn note_log(log: &[u8], traces: usize, tally: &mut [u8])
    ensures { Gained tally.old (λ u s v. between (walked log.now traces 0) u v s) tally.new }
{
    for k in 0..traces {
        let trace = calllog::trace::trace_at(log, k);
        note_trace(trace, tally);
    }
}
