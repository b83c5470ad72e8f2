// What the three families of reservoir rules give in a view: the level's conflict, e's time, an amount.
ghost use Rattle.std.specs.Prelude.{◌≡◌, ◌<◌, ◌-ℤ◌};
ghost use Rattle.std.specs.Int.Signed.{lt_z};
ghost use Rattle.integers.specs.Range.{Within};
ghost use Rattle.model.specs.Job.{t_min, h_min, h_max};
ghost use Rattle.model.specs.Levels.{stands, most};
ghost use Rattle.model.specs.Rules.{counts_from, earlier, given_if, bound, possible_producer, reached_at, earliest, time_rule, targeted};
ghost use Rattle.tables.specs.Board.{board};
ghost use Rattle.levels.specs.Values.{place_of, as_view, seen_by};
ghost use Rattle.levels.specs.Sights.{sees, shows};
ghost use Rattle.rules.specs.Values.{time_found, is_beaten, falls_short, Short};

use levels::{Place, Sight, View};
use tables::{Board, Height, Time};

// ---- the level

// Rules 3 and 9: is most before (by) e below the limit?
pub fn level_clashes(s: Sight) -> bool
    ensures { result ≡ lt_z (most (sees s.entry) (shows s.entry)) s.entry.view.limit.0 }
{
    s.most() < s.view.limit
}

// ---- e's time

// The time of e from which an event with this t_min counts: the 1 of rule 4.
pub fn counts_from(strict: bool, t: Time) -> Time
    requires { Within t.0 20000 }
    ensures { result.0 ≡ counts_from strict t.0 }
{
    if strict { t + Time::MINUTE } else { t }
}

// The time of e from which y counts.
fn starts(s: Sight, y: usize) -> Time
    requires { y < s.view.events }
    ensures { result.0 ≡ counts_from ((sees s.entry).before y) (shows s.entry y t_min) }
{
    let before = s.view.stance.is_before(s.board, y);
    counts_from(before, s.board.t_min(y))
}

// A delivery possibly, not surely, before (by).
pub fn possible_producer(p: Place, h: Height) -> bool
    ensures { result ≡ possible_producer (place_of p) h.0 }
{
    let made = h.produces();
    !p.sure & p.possible & made
}

// Is y a delivery possibly, not surely, before (by) e?
fn may_count(s: Sight, y: usize) -> bool
    requires { y < s.view.events }
    ensures { result ≡ possible_producer (stands (sees s.entry) (shows s.entry) y) (shows s.entry y h_max) }
{
    possible_producer(s.view.stands(s.board, y), s.view.seen_h_max(s.board, y))
}

// Is the limit reached at y, with e no later than y counts from?
pub fn reached_at(s: Sight, y: usize) -> bool
    requires { y < s.view.events }
    ensures { result ≡ reached_at (sees s.entry) (shows s.entry) y }
{
    may_count(s, y) && s.view.limit <= s.most_in(s.e_min(), starts(s, y))
}

// The search for the earliest time at which the limit is reached: the earliest found, and the latest at which it was found not to be.
#[derive(Clone, Copy)]
pub struct Search {
    pub best: Option<Time>,
    pub short: Option<Time>,
}

// No later time than t was found.
fn is_beaten(best: Option<Time>, t: Time) -> bool
    ensures { result ≡ is_beaten best t.0 }
{
    best.is_some_and(|u| u <= t)
}

// The limit was found not to be reached at t or a later time.
fn falls_short(short: Option<Time>, t: Time) -> bool
    ensures { result ≡ falls_short short t.0 }
{
    short.is_some_and(|u| t <= u)
}

// The search goes on with y. The level is asked for only where y's time lies between the two.
pub fn search_event(s: Sight, y: usize, found: Search) -> Search
    requires { (y < s.view.events) × Short (sees s) (shows s) found.short }
    ensures { (time_found result.best
        ≡ earlier (time_found found.best)
        (given_if (reached_at (sees s.entry) (shows s.entry) y)
        (bound (counts_from ((sees s.entry).before y) (shows s.entry y t_min)))))
        × Short (sees s.entry) (shows s.entry) result.short }
{
    let t = starts(s, y);
    if is_beaten(found.best, t) {
        return found;
    }
    if falls_short(found.short, t) {
        return found;
    }
    if reached_at(s, y) {
        return Search {
            best: Some(t),
            ..found
        };
    }
    if may_count(s, y) {
        return Search {
            short: Some(t),
            ..found
        };
    }
    found
}

// The earliest time of e at which the limit is reached.
pub fn earliest(s: Sight) -> Option<Time>
    ensures { time_found result ≡ earliest (sees s.entry) (shows s.entry) s.entry.view.events }
{
    let mut found = Search {
        best: None,
        short: None,
    };
    for y in 0..s.view.events {
        found = search_event(s, y, found);
    }
    found.best
}

// Rules 4 and 10: where the sure part is below the limit, the earliest time at which it is reached.
pub fn time_rule(s: Sight) -> Option<Time>
    ensures { time_found result ≡ time_rule (sees s.entry) (shows s.entry) }
{
    if s.sure_part() < s.view.limit {
        earliest(s)
    } else {
        None
    }
}

// ---- an amount

// A pull surely before (by) or a delivery possibly before (by).
pub fn targeted(p: Place, h: Height) -> bool
    ensures { result ≡ targeted (place_of p) h.0 }
{
    let made = h.produces();
    let taken = h.consumes();
    p.sure & (taken | made) | !p.sure & p.possible & made
}

// Is y a target of rules 5 and 11 at e?
pub fn is_target(b: &Board, view: View, y: usize) -> bool
    requires { (view.subject < 64) × (y < 64) × Within (board b.now.words y h_min) 9999 }
    ensures { result ≡ targeted (stands (as_view view (board b.now.words)) (seen_by view (board b.now.words)) y) (seen_by view (board b.now.words) y h_max) }
{
    targeted(view.stands(b, y), view.seen_h_max(b, y))
}

// Rules 5 and 11: h(y) ≥ Lmin − (most before (by) e − h_max(y)).
pub fn height_bound(s: Sight, y: usize) -> Height
    requires { y < s.view.events }
    ensures { result.0 ≡ s.entry.view.limit.0 -ℤ (most (sees s.entry) (shows s.entry) -ℤ shows s.entry y h_max) }
{
    let others = s.most() - s.view.seen_h_max(s.board, y);
    s.view.limit - others
}
