// What each rule gives.
ghost use Rattle.std.specs.Prelude.{◌≡◌, ◌/◌, ◌<◌, length};
ghost use Rattle.model.specs.Rules.{level, time, height};
ghost use Rattle.tables.specs.Board.{board};
ghost use Rattle.tables.specs.Job.{reservoir_of};
ghost use Rattle.levels.specs.Values.{Views};
ghost use Rattle.rules.specs.Values.{family_of, variant_of, rule_of, finding_of, seen_rule, IsLag, Timed};
ghost use Rattle.rules.specs.Attempts.{on, Gives};

use crate::bounds::{height_bound, is_target, level_clashes, time_rule};
use crate::lags::Lag;
use crate::{Attempt, Family, Finding, Rule, Variant};
use levels::Sight;
use levels::places::side_height;

// Rules 3, 6, 9, 12: a conflict of the levels, or nothing.
pub fn level_finding(s: Sight) -> Finding
    ensures { finding_of result ≡ seen_rule level s.entry.view (board s.entry.board.now.words) s.entry.view.subject }
{
    if level_clashes(s) {
        Finding::Clash
    } else {
        Finding::Nothing
    }
}

// Rules 4, 7, 10, 13: a bound on e's time, or nothing.
pub fn time_finding(s: Sight) -> Finding
    ensures { finding_of result ≡ seen_rule time s.entry.view (board s.entry.board.now.words) s.entry.view.subject }
{
    match time_rule(s) {
        Some(t) => Finding::Bound(t.into()),
        None => Finding::Nothing,
    }
}

// Rules 5, 8, 11, 14: a bound on y's amount, or nothing.
pub fn height_finding(s: Sight, y: usize) -> Finding
    requires { y < s.view.events }
    ensures { finding_of result ≡ seen_rule height s.entry.view (board s.entry.board.now.words) y }
{
    if is_target(s.board, s.view, y) {
        let h = height_bound(s, y);
        Finding::Bound(side_height(s.view.stance.mirror, h).into())
    } else {
        Finding::Nothing
    }
}

// What a family of rules gives in a view, with target y.
fn family_finding(s: Sight, f: Family, y: usize) -> Finding
    requires { y < s.view.events }
    ensures { finding_of result ≡ seen_rule (family_of f) s.entry.view (board s.entry.board.now.words) y }
{
    match f {
        Family::Level => level_finding(s),
        Family::Time => time_finding(s),
        Family::Height => height_finding(s, y),
    }
}

// ---- in an attempt

impl<'a> Attempt<'a> {
    // Its lag, where it is of rule 1 or 2.
    pub fn lag(self) -> Lag
        requires { self.subject < length self.lags.now / 3 }
        ensures { IsLag self.entry.lags.now self.entry.subject result × Timed result (on self.entry) }
    {
        Lag::of_table(self.lags, self.subject)
    }

    // Its board in its view, where it is of a reservoir rule.
    pub fn sight(self, v: Variant) -> Sight<'a>
        requires { variant_of v ≡ rule_of self.rule }
        ensures { Views self.entry.job.events (reservoir_of self.entry.job.reservoir) v.mirror v.strict self.entry.subject result.view
            × (result.board.now ≡ self.entry.board.now) }
    {
        Sight {
            board: self.board,
            view: v.view(self.job, self.subject),
        }
    }

    // What its rule gives. Made part of its caller, as `effect` and an attempt of a round are: there the rule is known, and a lag asks for no view.
    #[inline(always)]
    pub fn finding(self) -> Finding
        ensures { Gives self.entry result }
    {
        match self.rule {
            Rule::LagUpper => Finding::Bound(self.lag().upper(self.board).into()),
            Rule::LagLower => Finding::Bound(self.lag().lower(self.board).into()),
            Rule::Reservoir(v) => family_finding(self.sight(v), v.family, self.target),
            // No such rule is tried here.
            Rule::Total { mirror: _ } => Finding::Nothing,
        }
    }
}
