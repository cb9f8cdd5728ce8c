// The transitive reduction (01, "Mining", steps 8 and 10).
ghost use Rattle.std.specs.Prelude.{◌≡◌, ◌<◌, ℕ, true};
ghost use Rattle.sets.specs.Members.{width, mem};
ghost use Rattle.sets.specs.Rows.{rows_for};
ghost use Rattle.steps.specs.Rowwise.{reduced_of, fits};

use crate::relations::union_of;
use sets::activity::WORD;
use sets::{Rows, Set, rows};

// The relation, at the events, without the pairs from a source to a target that a middle activity joins too; the first middle decides.
// A middle is tried once for a source: all targets that it joins go at once, so it need not be tried for the next target again. Every pair
// is judged on `rows`, which stay as they are, so the order of the pairs makes no difference. Rows by target serve as well as rows by
// source: a pair turned round is joined by the same middles. In the narrow form the rows lie below 64 (02, 10/12): each is cut there, which
// changes nothing, and the sets of the loops are parts of it, so their high words fall away.
fn reduced_in<const WIDE: bool>(events: Set, rows: &Rows) -> Rows
    requires { (a : ℕ) → a < width → mem events a ≡ true → fits WIDE rows.now a ≡ true }
    ensures { result ≡ rows_for events (reduced_of rows.now) }
{
    let mut out = rows::empty();
    'source: for source in events.members() {
        let row = rows::row(rows, source);
        let from = if WIDE {
            row
        } else {
            row.intersection(Set::below(WORD))
        };
        let mut kept = Set::EMPTY;
        let mut targets = from;
        let mut middles = from.members();
        // No loop over members(): a turn takes more than the least of the targets.
        'target: while !targets.is_empty() {
            let target = targets.least();
            'middle: while let Some(middle) = middles.next() {
                let joined = rows::row(rows, middle);
                targets = targets.difference(joined);
                if joined.has(target) {
                    continue 'target;
                }
            }
            kept = kept.union(Set::one(target));
            targets = targets.difference(Set::one(target));
        }
        rows::put(&mut out, source, kept);
    }
    out
}

// The same in the form that the events' rows ask for.
pub fn reduced(events: Set, rows: &Rows) -> Rows
    ensures { result ≡ rows_for events (reduced_of rows.now) }
{
    let all = union_of(rows, 0, events);
    if all.is_within(Set::below(WORD)) {
        reduced_in::<false>(events, rows)
    } else {
        reduced_in::<true>(events, rows)
    }
}
