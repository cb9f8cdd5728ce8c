// The members of a set one by one, the least first: `for a in s.members()`.
ghost use Rattle.std.specs.Prelude.{◌≡◌, true, Some, MatchOption, IfSome};
ghost use Rattle.std.specs.Iterator.{at_most, UpTo};
ghost use Rattle.std.specs.Iterator.SizeHint.{IsWithinCount};
ghost use Rattle.sets.specs.Members.{width, mem, is_empty, count_below, Takes};

use crate::activity::{Activity, WORD};
use crate::set::Set;

#[derive(Clone, Copy)]
pub struct Members {
    // Those still to come.
    pub rest: Set,
}

impl Iterator for Members {
    type Item = Activity;

    ghost next_gives = { λ s r t. MatchOption r ((is_empty s.rest ≡ true) × (t ≡ s)) (λ a. Takes s.rest a.0 t.rest) };

    ghost remaining = { λ s. at_most (count_below width (mem s.rest)) };

    #[inline]
    fn next(&mut self) -> Option<Activity> {
        let Set { low, high } = self.rest;
        if low != 0 {
            self.rest.low = low & (low - 1);
            return Some(Activity(u64::trailing_zeros(low) as u8));
        }
        if high != 0 {
            self.rest.high = high & (high - 1);
            return Some(Activity(WORD + u64::trailing_zeros(high) as u8));
        }
        None
    }

    // How many are still to come, from below and from above.
    fn size_hint(&self) -> (usize, Option<usize>)
        ensures lower { IsWithinCount result.0 (at_most (count_below width (mem self.now.rest))) }
        ensures upper { IfSome result.1 (UpTo (at_most (count_below width (mem self.now.rest)))) }
        ensures value { result ≡ (count_below width (mem self.now.rest), Some (count_below width (mem self.now.rest))) }
    {
        let n = self.rest.count() as usize;
        (n, Some(n))
    }
}
