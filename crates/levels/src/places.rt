// Before and by, an event's place to e, and the mirror: the leaves that compare and negate words.
// That an event's amounts, or those of the first n, are in range stays in contracts, here and above: a board takes any word, so an invariant of it would ask more of its callers, and a struct of board and event, or of board and n, would be made anew in each step or for each loop.
ghost use Rattle.std.specs.Prelude.{◌≡◌, cond, ◌<◌, neg_ℤ};
ghost use Rattle.integers.specs.Range.{Within};
ghost use Rattle.model.specs.Job.{h_min, h_max, ahead};
ghost use Rattle.model.specs.View.{side, side_value};
ghost use Rattle.model.specs.Levels.{placed};
ghost use Rattle.tables.specs.Board.{board};
ghost use Rattle.levels.specs.Values.{place_of};

use crate::Place;
use tables::{Board, Height, Time};

// Before (strict) or by.
pub fn ahead(strict: bool, a: Time, b: Time) -> bool
    ensures { result ≡ ahead strict a.0 b.0 }
{
    if strict { a < b } else { a <= b }
}

// Is it e itself; before or by; the test for surely; the test for possibly.
pub fn placed(own: bool, strict: bool, surely: bool, possibly: bool) -> Place
    ensures { place_of result ≡ placed own strict surely possibly }
{
    Place {
        sure: own & !strict | !own & surely,
        possible: !own & possibly,
    }
}

// y's h_max on a side: the job as it stands, or its mirror.
pub fn side_h_max(b: &Board, mirror: bool, y: usize) -> Height
    requires { (y < 64) × Within (board b.now.words y h_min) 9999 }
    ensures { result.0 ≡ side mirror (board b.now.words) y h_max }
{
    if mirror { -b.h_min(y) } else { b.h_max(y) }
}

// Of a least and a most, the limit of a side: the least, in the mirror the most negated.
pub fn side_limit(mirror: bool, least: Height, most: Height) -> Height
    requires { Within most.0 10000000 }
    ensures { result.0 ≡ cond mirror (neg_ℤ most.0) least.0 }
{
    if mirror { -most } else { least }
}

// An amount turned to the other side, or back.
pub fn side_height(mirror: bool, h: Height) -> Height
    requires { Within h.0 10000000 }
    ensures { result.0 ≡ side_value mirror h_min h.0 }
{
    if mirror { -h } else { h }
}
