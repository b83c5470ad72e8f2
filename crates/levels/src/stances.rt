// How a rule counts: before or by of each event, and where it places one.
// A stance is lent: three flags handed over by value travel as one number, which every step of a loop would take apart.
ghost use Rattle.std.specs.Prelude.{◌≡◌, ◌<◌};
ghost use Rattle.model.specs.Job.{t_min, t_max, ahead};
ghost use Rattle.model.specs.Levels.{placed};
ghost use Rattle.tables.specs.Board.{board};
ghost use Rattle.levels.specs.Values.{place_of, strict_at};

use crate::places::{ahead, placed};
use crate::{Place, Stance};
use tables::{Board, Time};

impl Stance {
    // Is "before" meant of y: wherever the rule is strict, and where deliveries count later, of a delivery on the job's own side.
    pub fn is_before(&self, b: &Board, y: usize) -> bool
        requires { y < 64 }
        ensures { result ≡ strict_at self.now (board b.now.words) y }
    {
        self.strict || !self.mirror && self.later && b.h_max(y).produces()
    }

    // Where y stands to e, whose time window is u..v; own says whether it is e itself.
    pub fn place(&self, b: &Board, u: Time, v: Time, y: usize, own: bool) -> Place
        requires { y < 64 }
        ensures { place_of result
            ≡ placed own (strict_at self.now (board b.now.words) y)
            (ahead (strict_at self.now (board b.now.words) y) (board b.now.words y t_max) u.0)
            (ahead (strict_at self.now (board b.now.words) y) (board b.now.words y t_min) v.0) }
    {
        let strict = self.is_before(b, y);
        let surely = ahead(strict, b.t_max(y), u);
        let possibly = ahead(strict, b.t_min(y), v);
        placed(own, strict, surely, possibly)
    }
}

// What is made of a stance, with the five that differ as literals in it: a loop over all events then has no test for them.
// A macro, since a function over a closure was tried: the closure is not made part of its caller, and a level costs a fifth more.
#[macro_export]
macro_rules! literally {
    ($stance:expr, $s:ident => $made:expr) => {{
        let stance = $stance;
        match (stance.mirror, stance.strict, stance.later) {
            (true, true, _) => $crate::literally!(@ $s, true, true, false, $made),
            (true, false, _) => $crate::literally!(@ $s, true, false, false, $made),
            (false, true, _) => $crate::literally!(@ $s, false, true, false, $made),
            (false, false, true) => $crate::literally!(@ $s, false, false, true, $made),
            (false, false, false) => $crate::literally!(@ $s, false, false, false, $made),
        }
    }};
    (@ $s:ident, $mirror:literal, $strict:literal, $later:literal, $made:expr) => {{
        let $s = $crate::Stance {
            mirror: $mirror,
            strict: $strict,
            later: $later,
        };
        $made
    }};
}
