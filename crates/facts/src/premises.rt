// Which facts a slip quotes and what it says of them.
ghost use Rattle.std.specs.Prelude.{◌≡◌, not, ◌&&◌, ◌||◌, ◌<◌, ℤ};
ghost use Rattle.integers.specs.Range.{Within};
ghost use Rattle.model.specs.Job.{h_min};
ghost use Rattle.model.specs.Standing.{Ranged};
ghost use Rattle.model.specs.Rules.{narrows};
ghost use Rattle.model.specs.Facts.{first_late, last_early, left_out, surely_consumed, latest, quotes_top, spares};
ghost use Rattle.tables.specs.Board.{board};
ghost use Rattle.levels.specs.Values.{place_of, as_view, seen_by};
ghost use Rattle.rules.specs.Values.{family_of, rule_of, effect_of};
ghost use Rattle.rules.specs.Attempts.{on, Acts};
ghost use Rattle.facts.specs.Quotes.{total_cited, Other, Any, LevelCites, LagCites, Cites, TotalCites, Quotes};

use crate::{Citing, LagCiting, LevelCiting, Others, Quoted, TotalCiting};
use levels::places::side_h_max;
use levels::{Place, Sight, Stance, View};
use rules::bounds::targeted;
use rules::lags::Lag;
use rules::{Attempt, Effect, Family, Rule};
use tables::{Board, End, Height, Time};

// ---- the tests for one event

// A delivery not counted.
pub fn left_out(p: Place, h: Height) -> bool
    ensures { result ≡ left_out (place_of p) h.0 }
{
    let made = h.produces();
    !p.sure & !p.possible & made
}

// A pull surely counted.
pub fn surely_consumed(p: Place, h: Height) -> bool
    ensures { result ≡ surely_consumed (place_of p) h.0 }
{
    let taken = h.consumes();
    p.sure & taken
}

// Is y another event than e, and a pull that e's level surely counts, or a delivery that it leaves out? e's time window is u..v.
pub fn other(b: &Board, view: View, u: Time, v: Time, y: usize) -> Others
    requires { (y < 64) × Within (board b.now.words y h_min) 9999 }
    ensures { Other (as_view view (board b.now.words)) (seen_by view (board b.now.words)) u.0 v.0 y result }
{
    let p = view.place(b, u, v, y);
    let h = view.seen_h_max(b, y);
    let taken = surely_consumed(p, h);
    let out = left_out(p, h);
    let another = y != view.subject;
    Others {
        early: another & taken,
        late: another & out,
    }
}

// Is one of the events such a pull, is one such a delivery?
pub fn others(b: &Board, view: View, u: Time, v: Time) -> Others
    requires { Ranged view.events (board b.now.words) }
    ensures { Any view.events (as_view view (board b.now.words)) (seen_by view (board b.now.words)) u.0 v.0 result }
{
    let mut found = Others {
        early: false,
        late: false,
    };
    for y in 0..view.events {
        let one = other(b, view, u, v, y);
        found.early |= one.early;
        found.late |= one.late;
    }
    found
}

// ---- e's time window and the times said of others

// Is "before" meant of a delivery that is not counted?
fn late_before(s: Stance) -> bool
    ensures { result ≡ (s.strict || (not s.mirror && s.later)) }
{
    s.strict | !s.mirror & s.later
}

// Such a delivery comes no earlier than this: the 1 is where `rules::bounds::counts_from` has none, and a `!` there is no plainer.
fn first_late(strict: bool, v: Time) -> Time
    requires { Within v.0 20001 }
    ensures { result.0 ≡ first_late strict v.0 }
{
    if strict { v } else { v + Time::MINUTE }
}

// A pull surely counted comes no later than this.
fn last_early(strict: bool, u: Time) -> Time
    requires { Within u.0 20001 }
    ensures { result.0 ≡ last_early strict u.0 }
{
    if strict { u - Time::MINUTE } else { u }
}

// ---- what the effect decides

// e's latest time that a slip goes by: of the time rule with bound v, v − 1.
fn latest(f: Family, t: Time, x: Effect) -> Time
    requires { (v : ℤ) → effect_of x ≡ narrows v → Within v 20000 }
    ensures { result.0 ≡ latest (family_of f) t.0 (effect_of x) }
{
    match (f, x) {
        (Family::Time, Effect::Narrows(v)) => Time::from(v) - Time::MINUTE,
        _ => t,
    }
}

// Does the family quote e's own t ≤?
fn quotes_top(f: Family) -> bool
    ensures { result ≡ quotes_top (family_of f) }
{
    f != Family::Time
}

// Is the target's h left out?
fn spares(f: Family, x: Effect) -> bool
    ensures { result ≡ spares (family_of f) (effect_of x) }
{
    f == Family::Height && x.has_narrowed()
}

// ---- one slip's facts

// Of a family of reservoir rules with target y and effect x, in a view. By itself: the loop over the events is no part of a slip of a lag.
#[inline(never)]
fn level_citing(s: Sight, f: Family, y: usize, x: Effect) -> LevelCiting
    requires { (v : ℤ) → effect_of x ≡ narrows v → Within v 20000 }
    ensures { LevelCites (family_of f) s.entry.view (board s.entry.board.now.words) y (effect_of x) result }
{
    let view = s.view;
    let from = s.e_min();
    let to = latest(f, s.e_max(), x);
    let o = others(s.board, view, from, to);
    let top = quotes_top(f);
    LevelCiting {
        view,
        from,
        to,
        after: first_late(late_before(view.stance), to),
        until: last_early(view.stance.strict, from),
        starts: o.early,
        ends: top & o.late,
        spared: spares(f, x).then_some(y),
    }
}

// Of a lag: are t ≥ of a and t ≤ of b quoted?
fn lag_citing(b: &Board, lag: Lag, starts: bool, ends: bool) -> LagCiting
    requires { (lag.a < 64) × (lag.b < 64) }
    ensures { LagCites starts ends lag (board b.now.words) result }
{
    LagCiting {
        a: lag.a,
        b: lag.b,
        from: starts.then_some(b.end(End::TMin, lag.a)),
        to: ends.then_some(b.end(End::TMax, lag.b)),
    }
}

// What decides the facts of the slip of an attempt with effect x.
#[inline(always)]
pub fn citing(a: Attempt, x: Effect) -> Citing
    requires { Acts a x }
    ensures { Cites a.entry.job a.entry.lags.now (on a.entry) (rule_of a.entry.rule) a.entry.subject a.entry.target x result }
{
    match a.rule {
        Rule::LagUpper => Citing::Lag(lag_citing(a.board, a.lag(), x.has_failed(), true)),
        Rule::LagLower => Citing::Lag(lag_citing(a.board, a.lag(), true, x.has_failed())),
        Rule::Reservoir(v) => Citing::Level(level_citing(a.sight(v), v.family, a.target, x)),
        // No such rule is tried here.
        Rule::Total { mirror } => total_citing(mirror, a.target, x),
    }
}

// Which facts of the subject a reservoir rule's slip quotes.
fn own_quoted(b: &Board, c: LevelCiting, z: usize) -> Quoted
    requires { (z < 64) × Within (board b.now.words z h_min) 9999 × (z ≡ c.view.subject) }
    ensures { Quotes c (board b.now.words) z result }
{
    let p = c.view.place(b, c.from, c.to, z);
    let h = c.view.seen_h_max(b, z);
    let spared = c.spared == Some(z);
    Quoted {
        lower: c.starts,
        upper: c.ends,
        height: !spared & targeted(p, h),
    }
}

// Those of another event: of a delivery its amount or its time, of a pull surely counted both, else none.
// Made part of the loop that writes, as `quoted` is: there a fact that is not quoted then costs no test, and a call each event costs half as much again.
#[inline(always)]
fn other_quoted(b: &Board, c: LevelCiting, z: usize) -> Quoted
    requires { (z < 64) × Within (board b.now.words z h_min) 9999 × (z ≡ c.view.subject → ⊥) }
    ensures { Quotes c (board b.now.words) z result }
{
    let p = c.view.stance.place(b, c.from, c.to, z, false);
    let h = c.view.seen_h_max(b, z);
    let spared = c.spared == Some(z);
    if h.produces() {
        let counted = p.sure | p.possible;
        Quoted {
            lower: !counted,
            upper: false,
            height: !spared & counted,
        }
    } else {
        let taken = surely_consumed(p, h);
        Quoted {
            lower: false,
            upper: taken,
            height: !spared & taken,
        }
    }
}

// Which facts of event z a reservoir rule's slip quotes.
#[inline(always)]
pub fn quoted(b: &Board, c: LevelCiting, z: usize) -> Quoted
    requires { (z < 64) × Within (board b.now.words z h_min) 9999 }
    ensures { Quotes c (board b.now.words) z result }
{
    if z == c.view.subject {
        own_quoted(b, c, z)
    } else {
        other_quoted(b, c, z)
    }
}

// ---- a set's slip

// What decides the facts of the slip of rule 17, in its mirror 18, with target y and effect x.
pub fn total_citing(mirror: bool, y: usize, x: Effect) -> Citing
    ensures { TotalCites mirror y (effect_of x) result }
{
    Citing::Total(TotalCiting {
        mirror,
        target: y,
        failed: x.has_failed(),
    })
}

// Does it quote the amount of event z: the target's in a conflict, of the others those that are not neutral?
pub fn total_quoted(b: &Board, c: TotalCiting, z: usize) -> bool
    requires { (z < 64) × Within (board b.now.words z h_min) 9999 }
    ensures { result ≡ total_cited c (board b.now.words) z }
{
    let target = c.target;
    if z == target {
        return c.failed;
    }
    let h = side_h_max(b, c.mirror, z);
    h.consumes() | h.produces()
}
