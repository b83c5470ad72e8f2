// One attempt of a rule at a subject with a target, on the windows as they then stand.
ghost use Rattle.std.specs.Prelude.{◌≡◌, false, cond, [], ◌∷◌, ◌<◌, ◌≤◌};
ghost use Rattle.model.specs.Rules.{rule, own_end};
ghost use Rattle.model.specs.Agenda.{try};
ghost use Rattle.model.specs.Rounds.{acted};
ghost use Rattle.tables.specs.Ends.{end_of};
ghost use Rattle.rules.specs.Values.{rule_of, effect_of, is_idle};
ghost use Rattle.rules.specs.Numbers.{number_of};
ghost use Rattle.rounds.specs.State.{room, Moves, Made};
ghost use Rattle.rounds.specs.Attempts.{stored, Tried, Found, Cited};

use crate::{CageJob, Log};
use facts::Citing;
use facts::premises::citing;
use rules::{Attempt, Effect, Rule};
use slips::Header;
use slips::writing::Quoting;
use tables::Board;

// The new end of the target's window, if there is one, stored.
fn store(b: &mut Board, h: Header)
    requires { h.target < 64 }
    ensures { b.new.words ≡ stored (end_of h.end) h.target (effect_of h.effect) b.old.words }
{
    if let Effect::Narrows(v) = h.effect {
        b.set_end(h.end, h.target, v);
    }
}

// It is, if its slip was written.
pub fn store_if(b: &mut Board, written: bool, h: Header)
    requires { h.target < 64 }
    ensures { b.new.words ≡ cond written (stored (end_of h.end) h.target (effect_of h.effect) b.old.words) b.old.words }
{
    if written {
        store(b, h);
    }
}

impl CageJob<'_> {
    // A narrowing or a conflict: its slip is entered, then the new end is stored.
    #[inline(always)]
    fn act(&mut self, header: Header, cited: Citing, log: &mut Log<'_>)
        requires { (header.number ≤ 18)
            × (end_of header.end ≡ own_end (rule header.number))
            × Tried self.old (rule header.number) header.subject header.target
            × Found self.old (rule header.number) header.subject header.target header.effect
            × Cited self.old (rule header.number) header.subject header.target header.effect cited
            × (is_idle (effect_of header.effect) ≡ false) }
        ensures { Moves
            (λ j. acted (room log.old) header.number j header.subject header.target (effect_of header.effect))
            self.old log.old self.new log.new }
    {
        let facts = Quoting {
            board: self.board,
            events: self.job.events,
            cited,
        };
        log.enter(header, &facts);
        store_if(self.board, log.is_written(), header);
    }

    // One attempt; none once the call has ended. A set job's has the same frame: what is read, cited and shown differs in each step, so that a trait of the steps would be longer than both.
    #[inline(always)]
    pub fn attempt(&mut self, rule: Rule, subject: usize, target: usize, log: &mut Log<'_>)
        requires { Tried self.old (rule_of rule) subject target }
        ensures { Made (λ j. try (number_of (rule_of rule)) subject target ∷ []) self.old log.old self.new log.new }
    {
        if !log.is_running() {
            return;
        }
        let attempt = Attempt {
            board: self.board,
            lags: self.lags,
            job: self.job,
            rule,
            subject,
            target,
        };
        let effect = attempt.effect();
        if effect.is_idle() {
            return;
        }
        let cited = citing(attempt, effect);
        let header = Header {
            number: rule.number(),
            end: rule.own_end(),
            subject,
            target,
            effect,
        };
        self.act(header, cited, log);
    }
}
