// The attempts of a set, of all sets.
ghost use Rattle.std.specs.Prelude.{◌≡◌, true, false, [], ◌∷◌, ◌<◌};
ghost use Rattle.model.specs.Agenda.{try, set_attempts};
ghost use Rattle.model.specs.Rounds.{acted, made};
ghost use Rattle.tables.specs.Board.{board};
ghost use Rattle.rules.specs.Values.{effect_of, is_idle};
ghost use Rattle.sets.specs.Sets.{count_at};
ghost use Rattle.rounds.specs.Held.{Held};
ghost use Rattle.rounds.specs.State.{room, Leads};
ghost use Rattle.members.specs.Placed.{SaneSets, is_member};
ghost use Rattle.members.specs.Members.{Binds, Moved, Swept, sets_attempts, number, both_attempts, Blank, Alone, shown_event, Does, Spares};

use crate::SetJob;
use facts::premises::total_citing;
use rounds::Log;
use rounds::attempts::store_if;
use rules::{Effect, Rule};
use sets::{MOST_BEGUN, Set};
use silence::slack::is_spared;
use slips::Header;
use slips::writing::Quoting;
use tables::{Board, Height};
use totals::{member, slack, total_effect};

// Event y's amounts stored on a board.
fn show_event(b: &Board, y: usize, s: &mut Board)
    requires { y < 64 }
    ensures { s.new.words ≡ shown_event b.now.words y s.old.words }
{
    s.set_h_min(y, b.h_min(y));
    s.set_h_max(y, b.h_max(y));
}

impl SetJob<'_> {
    // The amounts of its members alone: the board that the facts of its slips are read off.
    fn show(&self, s: &mut Board)
        requires { Blank s.old.words }
        ensures { Alone self.now (count_at self.now.set.table.now self.now.set.at) s.new.words }
    {
        for i in 0..self.set.count() {
            show_event(self.board, member(self.set, i), s);
        }
    }

    // ---- one attempt

    // A narrowing or a conflict of rule 17, in the mirror 18, with target y: its slip is entered, then the new end is stored.
    fn act(&mut self, mirror: bool, y: usize, x: Effect, log: &mut Log<'_>)
        requires { Does self.old mirror y x × (is_idle (effect_of x) ≡ false) }
        ensures { Moved (λ j. acted (room log.old) (number mirror) j self.old.subject y (effect_of x)) self.old log.old self.new log.new }
    {
        let mut s = Board::blank();
        self.show(&mut s);
        let facts = Quoting {
            board: &s,
            events: self.events,
            cited: total_citing(mirror, y, x),
        };
        let rule = Rule::Total { mirror };
        let header = Header {
            number: rule.number(),
            end: rule.own_end(),
            subject: self.subject,
            target: y,
            effect: x,
        };
        log.enter(header, &facts);
        store_if(self.board, log.is_written(), header);
    }

    // One attempt of it; none once the call has ended. The frame is that of a cage job's attempt: what is read, cited and shown differs in each step, so that a trait of the steps would be longer than both.
    fn attempt(&mut self, mirror: bool, y: usize, log: &mut Log<'_>)
        requires { (y < self.old.events) × (is_member self.old.set.table.now self.old.subject y ≡ true) }
        ensures { Swept (λ j. try (number mirror) self.old.subject y ∷ []) self.old log.old self.new log.new }
    {
        if !log.is_running() {
            return;
        }
        let s = slack(self.board, self.set, mirror);
        let x = total_effect(self.board, mirror, y, s);
        if x.is_idle() {
            return;
        }
        self.act(mirror, y, x, log);
    }

    // ---- the set

    // Rules 17 and 18 for the member y: what the first moves the second reads.
    fn both_rules(&mut self, y: usize, log: &mut Log<'_>)
        requires { (y < self.old.events) × (is_member self.old.set.table.now self.old.subject y ≡ true) }
        ensures { Swept (λ j. both_attempts self.old.subject y) self.old log.old self.new log.new }
    {
        self.attempt(false, y, log);
        self.attempt(true, y, log);
    }

    // The smaller slack of its two sides: a member whose amounts it spares stays as it is.
    fn least_slack(&self) -> Height
        ensures { Spares self.now result.0 }
    {
        let low = slack(self.board, self.set, false);
        let high = slack(self.board, self.set, true);
        low.min(high)
    }

    // Its members as listed. Its slack is added up once, and again after a member that it does not spare.
    fn set_rules(&mut self, log: &mut Log<'_>)
        ensures { Swept (λ j. set_attempts j self.old.subject) self.old log.old self.new log.new }
    {
        let mut s = self.least_slack();
        for i in 0..self.set.count() {
            let y = member(self.set, i);
            if !is_spared(self.board, y, s) {
                self.both_rules(y, log);
                s = self.least_slack();
            }
        }
    }
}

// ---- all sets

// The attempts of a round that are the sets': equal to those of every call of n events with these set words.
pub fn all_sets(board: &mut Board, events: usize, sets: &[i32], log: &mut Log<'_>)
    requires { Held events board.old.words × SaneSets events sets.now }
    ensures { Leads events (Binds events sets.now) (λ j. made (room log.old) j (sets_attempts j)) board.old.words log.old board.new.words log.new
        × Held events board.new.words }
{
    let mut set = Set { table: sets, at: 0 };
    for subject in 0..MOST_BEGUN {
        if set.at >= sets.len() {
            break;
        }
        let mut job = SetJob {
            board: &mut *board,
            events,
            set,
            subject,
        };
        job.set_rules(log);
        set = set.next();
    }
}
