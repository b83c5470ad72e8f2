// Sums that show rules at an event, and lags, to do nothing, so that they are passed over.
ghost use Rattle.std.specs.Prelude.{◌≡◌, ◌&&◌, ◌<◌, ◌≤◌, ◌+ℤ◌};
ghost use Rattle.integers.specs.Range.{Within};
ghost use Rattle.integers.specs.Sum.{sum};
ghost use Rattle.model.specs.Job.{t_min, t_max, h_min, meets};
ghost use Rattle.model.specs.Standing.{Ranged};
ghost use Rattle.model.specs.View.{side};
ghost use Rattle.tables.specs.Board.{board};
ghost use Rattle.tables.specs.Ends.{end_of};
ghost use Rattle.tables.specs.Job.{reservoir_of};
ghost use Rattle.levels.specs.Sights.{sees, shows};
ghost use Rattle.rules.specs.Values.{Timed};
ghost use Rattle.silence.specs.Calm.{reaches_early, floor_gain, spread_of, floored, calm, drain, deep, ordered, all_calm, lag_kept};

use crate::OneCage;
use crate::slack::width;
use levels::Sight;
use levels::levels::added;
use levels::places::side_h_max;
use levels::views::{cage_limit, side_opening};
use rules::lags::Lag;
use tables::{Board, End, Height, MOST_AMOUNT, Time, Word};

// ---- rules 3 and 4

// Does e's level reach the limit already with e at its earliest minute?
pub fn reaches_early(s: Sight) -> bool
    ensures { result ≡ reaches_early (sees s.entry) (shows s.entry) }
{
    let u = s.e_min();
    let ordered = u <= s.e_max();
    let reached = s.view.limit <= s.most_in(u, u);
    ordered & reached
}

// ---- rules 3 to 14

// What y adds at least: a delivery that begins before u, all else that ends by u.
fn floor_gain(b: &Board, mirror: bool, u: Time, y: usize) -> Height
    requires { (y < 64) × Within (board b.now.words y h_min) 9999 }
    ensures { result.0 ≡ floor_gain (side mirror (board b.now.words)) u.0 y }
{
    let early = b.t_min(y) < u;
    let gone = b.t_max(y) <= u;
    let h = side_h_max(b, mirror, y);
    let made = h.produces();
    h.kept(made & early | !made & gone)
}

// The opening stock q and what all events add at least.
fn floor_gains(b: &Board, n: usize, q: Height, mirror: bool, u: Time) -> Height
    requires { Ranged n (board b.now.words) × Within q.0 1000000 }
    ensures { result.0 ≡ q.0 +ℤ sum n (floor_gain (side mirror (board b.now.words)) u.0) }
{
    added(n, q, |y| floor_gain(b, mirror, u, y))
}

// What y takes at most.
fn drain(b: &Board, mirror: bool, y: usize) -> Height
    requires { (y < 64) × Within (board b.now.words y h_min) 9999 }
    ensures { result.0 ≡ drain (side mirror (board b.now.words)) y }
{
    let h = side_h_max(b, mirror, y);
    h.kept(!h.produces())
}

impl OneCage<'_> {
    // Does the floor at e lie over the limit of a side by d?
    fn is_floored(self, mirror: bool, e: usize, d: Height) -> bool
        requires { (e < self.job.events) × Within d.0 20000 }
        ensures { result ≡ floored mirror self.entry.job.events (reservoir_of self.entry.job.reservoir) (board self.entry.board.now.words) e d.0 }
    {
        let b = self.board;
        let c = self.job.reservoir;
        let all = floor_gains(
            b,
            self.job.events,
            side_opening(mirror, c),
            mirror,
            b.t_min(e),
        );
        let floor = all + drain(b, mirror, e);
        cage_limit(mirror, c) + d <= floor
    }

    // Does it do so on both sides?
    pub fn is_calm(self, e: usize, d: Height) -> bool
        requires { (e < self.job.events) × Within d.0 20000 }
        ensures { result ≡ calm self.entry.job.events (reservoir_of self.entry.job.reservoir) (board self.entry.board.now.words) e d.0 }
    {
        let b = self.board;
        self.is_floored(false, e, d) && self.is_floored(true, e, d) && b.t_min(e) <= b.t_max(e)
    }
}

// ---- rules 3 to 14 at every event

// The opening stock q less all that events can take.
fn drained(b: &Board, n: usize, q: Height, mirror: bool) -> Height
    requires { Ranged n (board b.now.words) × Within q.0 1000000 }
    ensures { result.0 ≡ q.0 +ℤ sum n (drain (side mirror (board b.now.words))) }
{
    added(n, q, |y| drain(b, mirror, y))
}

// Does no event end before it begins? The loop has no branch: `all` would stop at the first that does, and go event by event.
fn are_ordered(b: &Board, n: usize) -> bool
    requires { n ≤ 64 }
    ensures { result ≡ ordered n (board b.now.words) }
{
    let mut all = true;
    for y in 0..n {
        all &= b.t_min(y) <= b.t_max(y);
    }
    all
}

impl OneCage<'_> {
    // Does that lie over the limit of a side by d?
    fn is_deep(self, mirror: bool, d: Height) -> bool
        requires { Within d.0 30000 }
        ensures { result ≡ deep mirror self.entry.job.events (reservoir_of self.entry.job.reservoir) (board self.entry.board.now.words) d.0 }
    {
        let c = self.job.reservoir;
        let least = drained(self.board, self.job.events, side_opening(mirror, c), mirror);
        cage_limit(mirror, c) + d <= least
    }

    // Is every event calm, since even all that can be taken leaves the limits far off?
    pub fn are_calm(self, d: Height) -> bool
        requires { Within d.0 20000 }
        ensures { result ≡ all_calm self.entry.job.events (reservoir_of self.entry.job.reservoir) (board self.entry.board.now.words) d.0 }
    {
        let reach = d + Height(MOST_AMOUNT);
        let low = self.is_deep(false, reach);
        let high = self.is_deep(true, reach);
        let ordered = are_ordered(self.board, self.job.events);
        low & (high & ordered)
    }
}

// ---- the largest width

// The largest width of an amount window, at least 0.
#[tactic(auto, using(crate::proofs::Calming::spread_none, crate::proofs::Calming::spread_more))]
pub fn spread(b: &Board, n: usize) -> Height
    requires { Ranged n (board b.now.words) }
    ensures { (result.0 ≡ spread_of n (board b.now.words)) × Within result.0 20000 }
{
    let mut widest = Height::ZERO;
    for y in 0..n {
        widest = widest.max(width(b, y));
    }
    widest
}

// ---- rules 1 and 2

// Do both ends of y's time window keep the bound v at an end?
fn keeps(b: &Board, y: usize, k: End, v: Word) -> bool
    requires { y < 64 }
    ensures { result ≡ (meets (end_of k) v.0 (board b.now.words y t_min) && meets (end_of k) v.0 (board b.now.words y t_max)) }
{
    let early = k.meets(v, b.end(End::TMin, y));
    let late = k.meets(v, b.end(End::TMax, y));
    early & late
}

// Do rules 1 and 2 of a lag leave both windows as they are?
pub fn is_kept(b: &Board, lag: Lag) -> bool
    requires { Timed lag (board b.now.words) }
    ensures { result ≡ lag_kept lag (board b.now.words) }
{
    let under = keeps(b, lag.a, End::TMax, lag.upper(b).into());
    let over = keeps(b, lag.b, End::TMin, lag.lower(b).into());
    under & over
}
