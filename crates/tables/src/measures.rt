// Times and heights: they compare as their numbers do, and only like measures meet in a sum.
ghost use Rattle.std.specs.Prelude.{◌≡◌, cond, neg_ℤ, pos, ◌+ℤ◌, ◌-ℤ◌};
ghost use Rattle.integers.specs.Range.{Within};
ghost use Rattle.model.specs.Job.{produces, consumes};

use std::ops::{Add, Neg, Sub};

// An event's time: document 01's minute.
#[derive(Clone, Copy, PartialEq, Eq, PartialOrd, Ord)]
pub struct Time(pub i32);

impl Add for Time {
    type Output = Time;

    ghost can_add = { λ t d. Within t.0 20001 × Within d.0 20000 };

    ghost add_gives = { λ t d r. r.0 ≡ t.0 +ℤ d.0 };

    fn add(self, d: Time) -> Time {
        Time(self.0 + d.0)
    }
}

impl Sub for Time {
    type Output = Time;

    ghost can_sub = { λ t d. Within t.0 20001 × Within d.0 20000 };

    ghost sub_gives = { λ t d r. r.0 ≡ t.0 -ℤ d.0 };

    fn sub(self, d: Time) -> Time {
        Time(self.0 - d.0)
    }
}

// An event's height: document 01's amount.
#[derive(Clone, Copy, PartialEq, Eq, PartialOrd, Ord)]
pub struct Height(pub i32);

impl Add for Height {
    type Output = Height;

    ghost can_add = { λ a b. Within a.0 10000000 × Within b.0 10000000 };

    ghost add_gives = { λ a b r. r.0 ≡ a.0 +ℤ b.0 };

    fn add(self, other: Height) -> Height {
        Height(self.0 + other.0)
    }
}

impl Sub for Height {
    type Output = Height;

    ghost can_sub = { λ a b. Within a.0 10000000 × Within b.0 10000000 };

    ghost sub_gives = { λ a b r. r.0 ≡ a.0 -ℤ b.0 };

    fn sub(self, other: Height) -> Height {
        Height(self.0 - other.0)
    }
}

impl Neg for Height {
    type Output = Height;

    ghost can_neg = { λ a. Within a.0 10000000 };

    ghost neg_gives = { λ a r. r.0 ≡ neg_ℤ a.0 };

    fn neg(self) -> Height {
        Height(-self.0)
    }
}

impl Time {
    pub const MINUTE: Time = Time(1);
}

impl Height {
    pub const ZERO: Height = Height(0);

    // A delivery.
    pub fn produces(self) -> bool
        ensures { result ≡ produces self.0 }
    {
        0 < self.0
    }

    // A pull.
    pub fn consumes(self) -> bool
        ensures { result ≡ consumes self.0 }
    {
        self.0 < 0
    }

    // The amount, if it is counted.
    pub fn kept(self, counted: bool) -> Height
        ensures { result.0 ≡ cond counted self.0 (pos 0) }
    {
        if counted { self } else { Height::ZERO }
    }
}
