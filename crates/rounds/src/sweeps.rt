// The attempts of a round in order: of lags, and of events with rules 3 to 14, targets in event order. Those of sets come between: they read no cage.
ghost use Rattle.std.specs.Prelude.{◌≡◌, [], ◌∷◌, ◌+◌, ◌/◌, ◌<◌, ◌≤◌, length};
ghost use Rattle.model.specs.Agenda.{lag_attempts, target_attempts, three_attempts, event_attempts};
ghost use Rattle.rules.specs.Values.{IsLag};
ghost use Rattle.rounds.specs.State.{Made};
ghost use Rattle.rounds.specs.Sweeps.{first_of, first_in, Seen, Looks, two_attempts, between_attempts, lags_attempts, events_attempts};

use crate::{CageJob, Log};
use levels::{Sight, View};
use rules::lags::Lag;
use rules::{Family, Rule};
use silence::OneCage;
use silence::calm::{is_kept, reaches_early, spread};
use silence::slack::{is_any_moved, is_moved, slack};

impl CageJob<'_> {
    // ---- what its tests look at

    // Its board in a view. That the view is one of the job's stays a clause, here and below: a struct of both would lend the job, which attempts change.
    fn sight(&self, view: View) -> Sight<'_>
        requires { Looks self.now view }
        ensures { (result.view ≡ view) × (result.board.now ≡ self.now.board.now) }
    {
        Sight {
            board: self.board,
            view,
        }
    }

    // Its board and its cage.
    fn one_cage(&self) -> OneCage<'_>
        ensures { (result.job ≡ self.now.job) × (result.board.now ≡ self.now.board.now) }
    {
        OneCage {
            board: self.board,
            job: self.job,
        }
    }

    // ---- lags

    // Rules 1 and 2 of lag g, made one after the other. By itself: the loop over the lags then holds no more than the test that passes most of them over.
    #[inline(never)]
    fn both_rules(&mut self, g: usize, lag: Lag, log: &mut Log<'_>)
        requires { (g < length self.old.lags.now / 3) × IsLag self.old.lags.now g lag }
        ensures { Made (λ j. lag_attempts j g) self.old log.old self.new log.new }
    {
        self.attempt(Rule::LagUpper, g, lag.a, log);
        self.attempt(Rule::LagLower, g, lag.b, log);
    }

    // Rules 1 and 2 of lag g, unless both leave the windows as they are.
    pub fn lag_rules(&mut self, g: usize, log: &mut Log<'_>)
        requires { g < length self.old.lags.now / 3 }
        ensures { Made (λ j. lag_attempts j g) self.old log.old self.new log.new }
    {
        let lag = Lag::of_table(self.lags, g);
        if is_kept(self.board, lag) {
            return;
        }
        self.both_rules(g, lag, log);
    }

    // All lags in table order.
    pub fn all_lags(&mut self, log: &mut Log<'_>)
        ensures { Made lags_attempts self.old log.old self.new log.new }
    {
        for g in 0..self.lags.len() / 3 {
            self.lag_rules(g, log);
        }
    }

    // ---- rules 3 to 14 at an event e, in the view of a side, before (strict) or by

    fn view_at(&self, mirror: bool, strict: bool, e: usize) -> View
        requires { e < self.now.job.events }
        ensures { Seen self.now mirror strict e result × Looks self.now result }
    {
        View::at(self.job.reservoir, self.job.events, mirror, strict, e)
    }

    // Its first two rules, with target e: 3 and 4, 6 and 7, 9 and 10, 12 and 13. Both are passed over where e's level reaches the limit already at e's earliest minute.
    fn two_rules(&mut self, view: View, log: &mut Log<'_>)
        requires { Looks self.old view }
        ensures { Made (λ j. two_attempts (first_in view) view.subject) self.old log.old self.new log.new }
    {
        if reaches_early(self.sight(view)) {
            return;
        }
        let e = view.subject;
        let s = view.stance;
        let level = Rule::reservoir(s.mirror, s.strict, Family::Level);
        let time = Rule::reservoir(s.mirror, s.strict, Family::Time);
        self.attempt(level, e, e, log);
        self.attempt(time, e, e, log);
    }

    // Its third rule, which is 5, 8, 11 or 14, with every target in event order: passed over is one that s, what e's level leaves over its limit, does not move. The level is added up once: no target moves an end that it reads.
    fn all_targets(&mut self, view: View, log: &mut Log<'_>)
        requires { Looks self.old view }
        ensures { Made (λ j. target_attempts j (first_in view + 2) view.subject) self.old log.old self.new log.new }
    {
        let sight = self.sight(view);
        let s = slack(sight);
        if !is_any_moved(sight, s) {
            return;
        }
        let r = Rule::reservoir(view.stance.mirror, view.stance.strict, Family::Height);
        for y in 0..self.job.events {
            if is_moved(self.board, view, s, y) {
                self.attempt(r, view.subject, y, log);
            }
        }
    }

    // Its three rules in a row.
    fn three_rules(&mut self, mirror: bool, strict: bool, e: usize, log: &mut Log<'_>)
        requires { e < self.old.job.events }
        ensures { Made (λ j. three_attempts j (first_of mirror strict) e) self.old log.old self.new log.new }
    {
        let view = self.view_at(mirror, strict, e);
        self.two_rules(view, log);
        self.all_targets(view, log);
    }

    // Rules 3 to 14 at e: before, its mirror, by, its mirror.
    pub fn event_rules(&mut self, e: usize, log: &mut Log<'_>)
        requires { e < self.old.job.events }
        ensures { Made (λ j. event_attempts j e) self.old log.old self.new log.new }
    {
        self.three_rules(false, true, e, log);
        self.three_rules(true, true, e, log);
        self.three_rules(false, false, e, log);
        self.three_rules(true, false, e, log);
    }

    // ---- events in order

    // The events from..to in order. Several are passed over at once where the limits are far off, and one where a floor under its levels shows that no rule does anything at it; d is the largest width of an amount window as it then stands.
    pub fn events_between(&mut self, from: usize, to: usize, log: &mut Log<'_>)
        requires { (from ≤ to) × (to ≤ self.old.job.events) }
        ensures { Made (between_attempts from to) self.old log.old self.new log.new }
    {
        let n = self.job.events;
        let mut d = spread(self.board, n);
        if from + 1 < to && self.one_cage().are_calm(d) {
            return;
        }
        for e in from..to {
            if !self.one_cage().is_calm(e, d) {
                self.event_rules(e, log);
                d = spread(self.board, n);
            }
        }
    }

    // All of them.
    pub fn all_events(&mut self, log: &mut Log<'_>)
        ensures { Made events_attempts self.old log.old self.new log.new }
    {
        self.events_between(0, self.job.events, log);
    }
}
