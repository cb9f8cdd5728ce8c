// What shut a step out: for a person who asks why it is refused with 9 (02, 8/12).
ghost use Rattle.std.specs.Prelude.{◌≡◌};
ghost use Rattle.sets.specs.Rows.{in_row};
ghost use Rattle.sets.specs.Tables.{table_at};
ghost use Rattle.engine.specs.Relations.{in_tables};
ghost use Rattle.finish.specs.Shut.{shut_after, shut_by};

use engine::Relations;
use engine::graph::{EXCLUDES, INCLUDES};
use sets::{Activity, tables};

// What stands where nothing did: the statement of `shut_by` says 255 (docs/STATEMENTS.md). The walk carries it too: with an Option in its
// stead a trace of thousands of events took up to two thirds longer.
pub const NOTHING: Activity = Activity(255);

// Whether an event has the step in its row of a relation.
fn has_pair(relations: &Relations, relation: u8, e: Activity, a: Activity) -> bool
    ensures { result ≡ in_row (table_at relations.now relation) e.0 a.0 }
{
    tables::row(relations, relation, e).has(a)
}

// One event more: it lets the step in, shuts it out, or leaves it as it is. An include wins, as in a step.
fn shut_after(relations: &Relations, last: Activity, e: Activity, a: Activity) -> Activity
    ensures { result.0 ≡ shut_after (in_tables relations.now) a.0 last.0 e.0 }
{
    if has_pair(relations, INCLUDES, e, a) {
        return NOTHING;
    }
    if has_pair(relations, EXCLUDES, e, a) {
        return e;
    }
    last
}

// The event of a trace that shut the step out last and was not followed by one that lets it in; 255 where there is none.
pub fn shut_by(relations: &Relations, trace: &[u8], a: Activity) -> Activity
    ensures { result.0 ≡ shut_by (in_tables relations.now) trace.now a.0 }
{
    let mut last = NOTHING;
    for &e in trace {
        last = shut_after(relations, last, Activity(e), a);
    }
    last
}
