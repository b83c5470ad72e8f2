// The widest windows.
ghost use Rattle.std.specs.Prelude.{◌≡◌, ◌≤◌};
ghost use Rattle.model.specs.Job.{End, widest_h_min, widest_h_max};
ghost use Rattle.tables.specs.Board.{board};
ghost use Rattle.tables.specs.Windows.{at_end};
ghost use Rattle.judging.specs.Wide.{widest_of, Wide};

use tables::{Board, Height, Job, LEAST_AMOUNT, MOST_AMOUNT, Time, Windows};

// The widest amounts of an event's kind, of which h is an amount: 1..9,999, −9,999..−1 or 0..0.
fn widest_amounts(h: Height) -> (Height, Height)
    ensures { (result.0.0 ≡ widest_h_min h.0) × (result.1.0 ≡ widest_h_max h.0) }
{
    if h.produces() {
        return (Height(1), Height(MOST_AMOUNT));
    }
    if h.consumes() {
        return (Height(LEAST_AMOUNT), Height(-1));
    }
    (Height::ZERO, Height::ZERO)
}

// The widest windows of an event's kind, of which h is an amount.
fn widest(horizon: Time, h: Height) -> Windows
    ensures { (k : End) → at_end result k ≡ widest_of horizon.0 h.0 k }
{
    let (low, high) = widest_amounts(h);
    Windows {
        t_min: Time(0),
        t_max: horizon,
        h_min: low,
        h_max: high,
    }
}

// The widest windows of the job's events, whose kinds are those of the windows on the board b.
pub fn widen(b: &Board, k: Job, wide: &mut Board)
    requires { k.events ≤ 64 }
    ensures { Wide k.events k.horizon.0 (board b.now.words) wide.new.words }
{
    for y in 0..k.events {
        wide.set_windows(y, widest(k.horizon, b.h_max(y)));
    }
}
