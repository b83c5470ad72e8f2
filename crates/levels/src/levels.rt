// What an event adds, most before (by) e, and the sure part: the level loops.
ghost use Rattle.std.specs.Prelude.{◌≡◌, ℕ, cond, ◌<◌, ◌≤◌, pos, ℤ, ◌+ℤ◌};
ghost use Rattle.integers.specs.Range.{Within};
ghost use Rattle.integers.specs.Sum.{sum};
ghost use Rattle.model.specs.Job.{h_min, h_max};
ghost use Rattle.model.specs.Standing.{Ranged};
ghost use Rattle.model.specs.View.{side};
ghost use Rattle.model.specs.Levels.{e_min, e_max, gain, most_in, most, sure_part};
ghost use Rattle.tables.specs.Board.{board};
ghost use Rattle.levels.specs.Values.{place_of, strict_at, other_gains};
ghost use Rattle.levels.specs.Sights.{sees, shows};

use crate::places::side_h_max;
use crate::{Place, Sight, Stance, literally};
use tables::{Board, Height, Time};

// An amount and what each of n events adds to it: one loop for all levels, floors and totals. It is made part of its caller with what is added, so that it goes along the board's rows without a branch.
#[inline(always)]
pub fn added<F: Fn(usize) -> Height>(n: usize, q: Height, gain: F) -> Height
    requires few { n ≤ 64 }
    requires opening { Within q.0 1000000 }
    requires callable { (y : ℕ) → y < n → F.pre gain y }
    requires small { (y : ℕ) → y < n → (h : Height) → F.post gain y h → Within h.0 9999 }
    ensures { (f : ℕ → ℤ) → ((y : ℕ) → y < n → (h : Height) → F.post gain y h → h.0 ≡ f y) → result.0 ≡ q.0 +ℤ sum n f }
{
    let mut total = q;
    for y in 0..n {
        total = total + gain(y);
    }
    total
}

// What an event adds at most, with h for its h_max: where only possible, a delivery's.
pub fn gain(p: Place, h: Height) -> Height
    ensures { result.0 ≡ gain (place_of p) h.0 }
{
    let made = h.produces();
    h.kept(p.sure | p.possible & made)
}

// What event y, as another than e, adds to the level of e, whose time window is u..v.
pub fn other_gain(b: &Board, s: &Stance, u: Time, v: Time, y: usize) -> Height
    requires { (y < 64) × Within (board b.now.words y h_min) 9999 }
    ensures { result.0
        ≡ other_gains (strict_at s.now (board b.now.words)) (side s.now.mirror (board b.now.words)) u.0 v.0 y }
{
    let h = side_h_max(b, s.mirror, y);
    gain(s.place(b, u, v, y, false), h)
}

// What e adds to its own level.
pub fn own_gain(b: &Board, s: &Stance, e: usize) -> Height
    requires { (e < 64) × Within (board b.now.words e h_min) 9999 }
    ensures { result.0
        ≡ cond (strict_at s.now (board b.now.words) e) (pos 0) (side s.now.mirror (board b.now.words) e h_max) }
{
    if s.is_before(b, e) {
        Height::ZERO
    } else {
        side_h_max(b, s.mirror, e)
    }
}

// The opening stock q and what n events add, all as others than e, whose time window is u..v: there is no test for e.
#[inline(always)]
fn sum_gains(b: &Board, n: usize, q: Height, s: &Stance, u: Time, v: Time) -> Height
    requires { Ranged n (board b.now.words) × Within q.0 1000000 }
    ensures { result.0
        ≡ q.0 +ℤ sum n (other_gains (strict_at s.now (board b.now.words)) (side s.now.mirror (board b.now.words)) u.0 v.0) }
{
    added(n, q, |y| other_gain(b, s, u, v, y))
}

impl Sight<'_> {
    // The same in a view.
    pub fn all_gains(self, u: Time, v: Time) -> Height
        ensures { result.0 ≡ self.entry.view.opening.0 +ℤ sum self.entry.view.events (other_gains (sees self.entry).before (shows self.entry) u.0 v.0) }
    {
        let b = self.board;
        let n = self.view.events;
        let q = self.view.opening;
        literally!(self.view.stance, s => sum_gains(b, n, q, &s, u, v))
    }

    // Most before (by) e with u..v for e's time window.
    pub fn most_in(self, u: Time, v: Time) -> Height
        ensures { result.0 ≡ most_in (sees self.entry) (shows self.entry) u.0 v.0 }
    {
        let b = self.board;
        let e = self.view.subject;
        let s = &self.view.stance;
        let others = self.all_gains(u, v) - other_gain(b, s, u, v, e);
        others + own_gain(b, s, e)
    }

    // t_min(e) and t_max(e).
    pub fn e_min(self) -> Time
        ensures { result.0 ≡ e_min (sees self.entry) (shows self.entry) }
    {
        self.view.e_min(self.board)
    }

    pub fn e_max(self) -> Time
        ensures { result.0 ≡ e_max (sees self.entry) (shows self.entry) }
    {
        self.view.e_max(self.board)
    }

    // Most before (by) e.
    pub fn most(self) -> Height
        ensures { result.0 ≡ most (sees self.entry) (shows self.entry) }
    {
        self.most_in(self.e_min(), self.e_max())
    }

    // The surely-before (by) part with the opening stock: the level where e comes too early for any event to be possibly before (by) it.
    pub fn sure_part(self) -> Height
        ensures { result.0 ≡ sure_part (sees self.entry) (shows self.entry) }
    {
        self.most_in(self.e_min(), Time(-20001))
    }
}
