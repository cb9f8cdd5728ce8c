// The rows of a relation, made one by one by a rule for the row of one activity.
ghost use Rattle.std.specs.Prelude.{◌≡◌};
ghost use Rattle.sets.specs.Rows.{Relation, rows_for};
ghost use Rattle.steps.specs.Rules.{IsRuleOf};

use sets::{Activity, Rows, Set, rows};

// The rows that the rule gives, at the members of a set; all other rows are empty.
pub(crate) fn rows_at<F: Fn(Activity) -> Set>(members: Set, rule: F) -> Rows
    requires { F.IsAlwaysCallable rule }
    ensures { (r : Relation) → IsRuleOf (F.post rule) r → result ≡ rows_for members r }
{
    let mut out = rows::empty();
    for a in members.members() {
        rows::put(&mut out, a, rule(a));
    }
    out
}
