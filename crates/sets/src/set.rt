// A set of activities in two words, bit a for activity a (01, "Sizes"; 02, 10/12). Every operation is said by its members.
ghost use Rattle.std.specs.Prelude.{◌≡◌, eqb, ltb};
ghost use Rattle.sets.specs.Tests.{◌and◌, ◌or◌, non};
ghost use Rattle.sets.specs.Members.{width, mem, those, within, is_empty, least_below, end_below, next_above, count_below};

use crate::activity::{Activity, WORD};
use crate::each::Members;

#[derive(Clone, Copy, PartialEq, Eq)]
pub struct Set {
    // Activities 0 to 63.
    pub low: u64,
    // Activities 64 to 127.
    pub high: u64,
}

impl Set {
    pub const EMPTY: Set = Set { low: 0, high: 0 };

    // The set of one activity; empty where its number is above every set's reach.
    pub fn one(a: Activity) -> Set
        ensures { result ≡ those (λ b. eqb b a.0) }
    {
        let n = a.0;
        if n < WORD {
            Set {
                low: 1 << n,
                high: 0,
            }
        } else if n < Activity::LIMIT {
            Set {
                low: 0,
                high: 1 << (n - WORD),
            }
        } else {
            Set::EMPTY
        }
    }

    // The set of one activity where a test holds; else empty.
    pub fn one_if(test: bool, a: Activity) -> Set
        ensures { result ≡ those (λ b. test and eqb b a.0) }
    {
        if test { Set::one(a) } else { Set::EMPTY }
    }

    // All activities below n; every activity where n is the width or more.
    pub fn below(n: u8) -> Set
        ensures { result ≡ those (λ a. ltb a n) }
    {
        if n < WORD {
            Set {
                low: (1 << n) - 1,
                high: 0,
            }
        } else if n < Activity::LIMIT {
            Set {
                low: !0,
                high: (1 << (n - WORD)) - 1,
            }
        } else {
            Set { low: !0, high: !0 }
        }
    }

    // Whether the activity is a member: no for any number past the width.
    pub fn has(self, a: Activity) -> bool
        ensures { result ≡ mem self a.0 }
    {
        let n = a.0;
        if n < WORD {
            self.low >> n & 1 == 1
        } else if n < Activity::LIMIT {
            self.high >> (n - WORD) & 1 == 1
        } else {
            false
        }
    }

    pub fn union(self, other: Set) -> Set
        ensures { result ≡ those (λ a. mem self a or mem other a) }
    {
        Set {
            low: self.low | other.low,
            high: self.high | other.high,
        }
    }

    pub fn intersection(self, other: Set) -> Set
        ensures { result ≡ those (λ a. mem self a and mem other a) }
    {
        Set {
            low: self.low & other.low,
            high: self.high & other.high,
        }
    }

    pub fn difference(self, other: Set) -> Set
        ensures { result ≡ those (λ a. mem self a and non (mem other a)) }
    {
        Set {
            low: self.low & !other.low,
            high: self.high & !other.high,
        }
    }

    // All activities of the width that are no members.
    pub fn complement(self) -> Set
        ensures { result ≡ those (λ a. non (mem self a)) }
    {
        Set {
            low: !self.low,
            high: !self.high,
        }
    }

    pub fn is_empty(self) -> bool
        ensures { result ≡ is_empty self }
    {
        self.low | self.high == 0
    }

    // Whether every member is a member of the other.
    pub fn is_within(self, other: Set) -> bool
        ensures { result ≡ within self other }
    {
        self.difference(other).is_empty()
    }

    // How many members.
    pub fn count(self) -> u8
        ensures { result ≡ count_below width (mem self) }
    {
        (u64::count_ones(self.low) + u64::count_ones(self.high)) as u8
    }

    // The least member; the width where there is none, as `least_below` says (docs/STATEMENTS.md). `members().next()` gives an Option.
    pub fn least(self) -> Activity
        ensures { result.0 ≡ least_below width (mem self) }
    {
        let low = self.low;
        if low != 0 {
            Activity(u64::trailing_zeros(low) as u8)
        } else {
            Activity(WORD + u64::trailing_zeros(self.high) as u8)
        }
    }

    // The set less its least member: what is left of a set that is passed member by member.
    pub fn without_least(self) -> Set
        ensures { result ≡ those (λ b. mem self b and non (eqb b (least_below width (mem self)))) }
    {
        let low = self.low;
        let high = self.high;
        if low != 0 {
            return Set {
                low: low & (low - 1),
                high,
            };
        }
        if high != 0 {
            return Set {
                low,
                high: high & (high - 1),
            };
        }
        Set { low, high }
    }

    // The members one by one, rising.
    pub fn members(self) -> Members
        ensures { result.rest ≡ self }
    {
        Members { rest: self }
    }

    // The least member above a; the width where there is none, as `next_above` says (docs/STATEMENTS.md).
    pub fn next(self, a: Activity) -> Activity
        ensures { result.0 ≡ next_above self a.0 }
    {
        let n = a.0;
        let low = self.low;
        let high = self.high;
        if n < WORD - 1 {
            let up = low >> (n + 1);
            if up != 0 {
                return Activity(n + 1 + u64::trailing_zeros(up) as u8);
            }
            return Activity(WORD + u64::trailing_zeros(high) as u8);
        }
        if n < Activity::LIMIT - 1 {
            let up = high >> (n - (WORD - 1));
            if up != 0 {
                return Activity(n + 1 + u64::trailing_zeros(up) as u8);
            }
        }
        Activity(Activity::LIMIT)
    }

    // One more than the greatest member, 0 where there is none: where a walk up the activities can stop.
    pub fn end(self) -> u8
        ensures { result ≡ end_below width (mem self) }
    {
        let high = self.high;
        if high != 0 {
            return Activity::LIMIT - u64::leading_zeros(high) as u8;
        }
        WORD - u64::leading_zeros(self.low) as u8
    }
}
