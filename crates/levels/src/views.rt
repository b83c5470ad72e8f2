// A view made, and what is seen in it: e's time window, another event's amount and place.
// What a cage owes and that a subject is an event stay in contracts: an invariant of `Reservoir` or `View` would ask more of whoever makes one.
ghost use Rattle.std.specs.Prelude.{◌≡◌, ◌<◌, pos};
ghost use Rattle.integers.specs.Range.{Within, eq_z};
ghost use Rattle.model.specs.Job.{h_min, h_max};
ghost use Rattle.model.specs.Standing.{SaneCage};
ghost use Rattle.model.specs.View.{side_value, side_limit};
ghost use Rattle.model.specs.Levels.{place, e_min, e_max, stands};
ghost use Rattle.tables.specs.Board.{board};
ghost use Rattle.tables.specs.Job.{reservoir_of};
ghost use Rattle.levels.specs.Values.{place_of, as_view, seen_by, Views};

use crate::places::{side_h_max, side_height, side_limit};
use crate::{Place, Stance, View};
use tables::{Board, Height, Reservoir, Time, Word};

// The limit of a side of a cage: of Lmin and Lmax.
pub fn cage_limit(mirror: bool, c: Reservoir) -> Height
    requires { SaneCage (reservoir_of c) }
    ensures { result.0 ≡ side_limit mirror (reservoir_of c) }
{
    side_limit(mirror, c.low, c.high)
}

// The opening stock of a side: Q, in the mirror negated.
pub fn side_opening(mirror: bool, c: Reservoir) -> Height
    requires { SaneCage (reservoir_of c) }
    ensures { result.0 ≡ side_value mirror h_max (reservoir_of c).initial }
{
    side_height(mirror, c.initial)
}

// Cover 0: do deliveries count later?
fn counts_later(c: Reservoir) -> bool
    ensures { result ≡ eq_z (reservoir_of c).cover (pos 0) }
{
    c.cover == Word(0)
}

impl View {
    // The view at e of a side, before (strict) or by, in a job of n events and this cage.
    pub fn at(c: Reservoir, n: usize, mirror: bool, strict: bool, e: usize) -> View
        requires { SaneCage (reservoir_of c) }
        ensures { Views n (reservoir_of c) mirror strict e result }
    {
        View {
            subject: e,
            events: n,
            stance: Stance {
                mirror,
                strict,
                later: counts_later(c),
            },
            limit: cage_limit(mirror, c),
            opening: side_opening(mirror, c),
        }
    }

    // t_min(e) and t_max(e).
    pub fn e_min(self, b: &Board) -> Time
        requires { self.subject < 64 }
        ensures { result.0 ≡ e_min (as_view self (board b.now.words)) (seen_by self (board b.now.words)) }
    {
        b.t_min(self.subject)
    }

    pub fn e_max(self, b: &Board) -> Time
        requires { self.subject < 64 }
        ensures { result.0 ≡ e_max (as_view self (board b.now.words)) (seen_by self (board b.now.words)) }
    {
        b.t_max(self.subject)
    }

    // y's h_max as it is seen.
    pub fn seen_h_max(self, b: &Board, y: usize) -> Height
        requires { (y < 64) × Within (board b.now.words y h_min) 9999 }
        ensures { result.0 ≡ seen_by self (board b.now.words) y h_max }
    {
        side_h_max(b, self.stance.mirror, y)
    }

    // Where y stands to e, whose time window is u..v.
    pub fn place(self, b: &Board, u: Time, v: Time, y: usize) -> Place
        requires { y < 64 }
        ensures { place_of result ≡ place (as_view self (board b.now.words)) (seen_by self (board b.now.words)) u.0 v.0 y }
    {
        self.stance.place(b, u, v, y, y == self.subject)
    }

    // Where y stands to e.
    pub fn stands(self, b: &Board, y: usize) -> Place
        requires { (self.subject < 64) × (y < 64) }
        ensures { place_of result ≡ stands (as_view self (board b.now.words)) (seen_by self (board b.now.words)) y }
    {
        self.place(b, self.e_min(b), self.e_max(b), y)
    }
}
