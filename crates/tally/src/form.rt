// The forms of a set (02, 10/12). Where a log has at most 64 activities its passes keep one word of each set: what a narrow set cannot hold is
// cut off before it is put down, so that the compiler drops the other word.
ghost use Rattle.std.specs.Prelude.{◌≡◌};
ghost use Rattle.sets.specs.Tests.{◌and◌};
ghost use Rattle.sets.specs.Members.{mem, those};
ghost use Rattle.tally.specs.Passes.{reaches};

use sets::activity::WORD;
use sets::{Activity, Set};

// What the form can hold of a set: all in the wide form, the activities below 64 in the narrow one.
pub fn in_form(s: Set, wide: bool) -> Set
    ensures { result ≡ those (λ x. reaches wide x and mem s x) }
{
    if wide {
        return s;
    }
    s.intersection(Set::below(WORD))
}

// Whether the form can hold an activity. A pass in the narrow form asks it once a place: then no row and no set is asked for again.
pub fn holds(e: Activity, wide: bool) -> bool
    ensures { result ≡ reaches wide e.0 }
{
    if wide {
        return true;
    }
    e.0 < WORD
}
