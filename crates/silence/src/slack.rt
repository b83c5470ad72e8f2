// What a level leaves over its limit, and whether a target of rules 5, 8, 11 and 14 can be moved by it.
ghost use Rattle.std.specs.Prelude.{◌≡◌, ◌<◌, ◌≤◌, ◌-ℤ◌};
ghost use Rattle.integers.specs.Range.{Within};
ghost use Rattle.model.specs.Job.{h_min, h_max};
ghost use Rattle.model.specs.Standing.{Ranged};
ghost use Rattle.model.specs.View.{side};
ghost use Rattle.tables.specs.Board.{board};
ghost use Rattle.levels.specs.Values.{strict_at, as_view, seen_by};
ghost use Rattle.levels.specs.Sights.{sees, shows};
ghost use Rattle.silence.specs.Slack.{slack_of, spares, moves, may_move, count, may_be_moved, some_move};

use levels::places::side_h_max;
use levels::{Sight, Stance, View, literally};
use rules::bounds::is_target;
use tables::{Board, Height, Time};

// Most before (by) e less the limit.
pub fn slack(s: Sight) -> Height
    ensures { result.0 ≡ slack_of (sees s.entry) (shows s.entry) }
{
    s.most() - s.view.limit
}

// The width of y's amounts.
pub fn width(b: &Board, y: usize) -> Height
    requires { (y < 64) × Within (board b.now.words y h_min) 9999 × Within (board b.now.words y h_max) 9999 }
    ensures { result.0 ≡ board b.now.words y h_max -ℤ board b.now.words y h_min }
{
    b.h_max(y) - b.h_min(y)
}

// Does the slack k leave y's amounts as they are?
pub fn is_spared(b: &Board, y: usize, k: Height) -> bool
    requires { (y < 64) × Within (board b.now.words y h_min) 9999 × Within (board b.now.words y h_max) 9999 }
    ensures { result ≡ spares k.0 (board b.now.words y h_min) (board b.now.words y h_max) }
{
    let over = Height::ZERO <= k;
    let narrow = width(b, y) <= k;
    over & narrow
}

// Is y a target at e that the slack k does not spare?
pub fn is_moved(b: &Board, view: View, k: Height, y: usize) -> bool
    requires { (view.subject < 64) × (y < 64) × Within (board b.now.words y h_min) 9999 × Within (board b.now.words y h_max) 9999 }
    ensures { result ≡ moves (as_view view (board b.now.words)) (seen_by view (board b.now.words)) (board b.now.words) k.0 y }
{
    !is_spared(b, y, k) && is_target(b, view, y)
}

// The same of y as another event than e, whose time window is u..v; neutral events are let pass.
fn may_move(b: &Board, s: &Stance, u: Time, v: Time, k: Height, y: usize) -> bool
    requires { (y < 64) × Within (board b.now.words y h_min) 9999 × Within (board b.now.words y h_max) 9999 }
    ensures { result
        ≡ may_move (strict_at s.now (board b.now.words)) (side s.now.mirror (board b.now.words)) (board b.now.words) u.0 v.0 k.0 y }
{
    let p = s.place(b, u, v, y, false);
    let made = side_h_max(b, s.mirror, y).produces();
    let spared = is_spared(b, y, k);
    !spared & (p.sure | p.possible & made)
}

// How many of n events, e taken for another event, may be moved: this loop has no branch and no test for e.
#[inline(always)]
fn tally_moves(b: &Board, n: usize, s: &Stance, u: Time, v: Time, k: Height) -> u32
    requires { Ranged n (board b.now.words) }
    ensures { (result
        ≡ count n
        (may_move (strict_at s.now (board b.now.words)) (side s.now.mirror (board b.now.words)) (board b.now.words) u.0 v.0 k.0))
        × (result ≤ 64) }
{
    let mut total: u32 = 0;
    for y in 0..n {
        let t = may_move(b, s, u, v, k, y);
        total += u32::from(t);
    }
    total
}

// The same in a view.
fn count_moves(s: Sight, k: Height) -> u32
    ensures { (result
        ≡ count s.entry.view.events (may_be_moved (sees s.entry) (shows s.entry) (board s.entry.board.now.words) k.0))
        × (result ≤ 64) }
{
    let b = s.board;
    let n = s.view.events;
    let u = s.e_min();
    let v = s.e_max();
    literally!(s.view.stance, stance => tally_moves(b, n, &stance, u, v, k))
}

// May some target at e be moved by the slack k?
pub fn is_any_moved(s: Sight, k: Height) -> bool
    ensures { result ≡ some_move (sees s.entry) (shows s.entry) (board s.entry.board.now.words) k.0 }
{
    let b = s.board;
    let e = s.view.subject;
    let stance = &s.view.stance;
    let all = count_moves(s, k);
    let own = u32::from(may_move(b, stance, s.e_min(), s.e_max(), k, e));
    let before = stance.is_before(b, e);
    let spared = is_spared(b, e, k);
    (own < all) | !before & !spared
}
