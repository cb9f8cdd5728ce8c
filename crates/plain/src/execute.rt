// The step on a marking that the caller lends: thin over the step by value, which judges all that it is handed.
ghost use Rattle.std.specs.Prelude.{◌≡◌};
ghost use Rattle.plain.specs.Graphs.{plain_held};
ghost use Rattle.plain.specs.Results.{plain_stepped_of};

use crate::graph::Graph;
use crate::step;
use engine::Marking;
use sets::{Activity, Answer};

// The lent marking holds what the step leaves: the marking after it, or the same where refused.
pub fn execute(g: &Graph<'_>, m: &mut Marking, a: Activity) -> Answer
    ensures { (result ≡ (plain_stepped_of (plain_held g.now) m.old a.0).answer)
        × (m.new ≡ (plain_stepped_of (plain_held g.now) m.old a.0).marking) }
{
    let stepped = step::step(g, *m, a);
    *m = stepped.marking;
    stepped.answer
}
