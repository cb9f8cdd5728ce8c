// Which steps can be the last: those that settle all that is owed. The last step is the one that a search tries most, so the
// table of what settles what is built once and the others are not tried.
ghost use Rattle.std.specs.Prelude.{◌≡◌};
ghost use Rattle.sets.specs.Tests.{◌and◌};
ghost use Rattle.sets.specs.Members.{mem, those};
ghost use Rattle.sets.specs.Rows.{in_row, rows_for};
ghost use Rattle.engine.specs.Relations.{in_tables};
ghost use Rattle.finish.specs.Parts.{settles, settlers_of, in_all, candidates_of};

use engine::graph::{EXCLUDES, INCLUDES, RESPONSES};
use engine::{Relations, State};
use sets::{Activity, Rows, Set, rows, tables};

// What an activity settles as the last step; nothing where it owes what it lets in itself.
fn settled(relations: &Relations, a: Activity) -> Set
    ensures { result ≡ those (settles (in_tables relations.now) a.0) }
{
    let gained = tables::row(relations, INCLUDES, a);
    let owed = tables::row(relations, RESPONSES, a).intersection(gained);
    if !owed.is_empty() {
        return Set::EMPTY;
    }
    let lost = tables::row(relations, EXCLUDES, a).difference(gained);
    lost.union(Set::one(a))
}

// What each event settles.
fn settled_rows(events: Set, relations: &Relations) -> Rows
    ensures { result ≡ rows_for events (settles (in_tables relations.now)) }
{
    let mut out = rows::empty();
    for a in events.members() {
        rows::put(&mut out, a, settled(relations, a));
    }
    out
}

// For each activity the events that settle it.
pub(crate) fn settlers(events: Set, relations: &Relations) -> Rows
    ensures { result ≡ settlers_of events (in_tables relations.now) }
{
    let settled = settled_rows(events, relations);
    rows::turned(&settled)
}

// The members of a set that settle an activity.
fn narrowed(settlers: &Rows, live: Set, owed: Activity) -> Set
    ensures { result ≡ those (λ a. mem live a and in_row settlers.now owed.0 a) }
{
    live.intersection(rows::row(settlers, owed))
}

// The members of a set that settle every member of another.
fn settling(settlers: &Rows, live: Set, owed: Set) -> Set
    ensures { result ≡ those (in_all settlers.now live owed) }
{
    let mut out = live;
    for x in owed.members() {
        if out.is_empty() {
            return out;
        }
        out = narrowed(settlers, out, x);
    }
    out
}

// The steps to try with so many left.
pub(crate) fn candidates(events: Set, settlers: &Rows, s: State, left: u8) -> Set
    ensures { result ≡ candidates_of events settlers.now s left }
{
    let live = events.intersection(s.included);
    if left == 1 {
        let owed = s.pending.intersection(s.included);
        return settling(settlers, live, owed);
    }
    live
}
