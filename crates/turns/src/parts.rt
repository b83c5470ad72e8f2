// The parts of a round.
ghost use Rattle.std.specs.Prelude.{◌≡◌, ◌+◌, ◌*◌, ◌<◌, ◌≤◌, length};
ghost use Rattle.model.specs.Agenda.{agenda};
ghost use Rattle.tables.specs.Job.{OfCage};
ghost use Rattle.rounds.specs.Sweeps.{between_attempts, lags_attempts, events_attempts};
ghost use Rattle.turns.specs.Turns.{Done};

use crate::Call;
use cages::Home;
use members::sweeps::all_sets;
use rounds::{CageJob, Log};
use tables::{Board, Job, cage_of};

impl Call<'_> {
    // The job of its first n events in one cage.
    fn job_of(&self, c: usize, n: usize) -> Job
        requires { 4 * c + 4 ≤ length self.now.cages.now }
        ensures { OfCage self.now.horizon.0 self.now.cages.now c n result }
    {
        Job::of_cage(self.horizon, self.cages, c, n)
    }

    // All rules at e and at its neighbours of the same cage, as that cage sees them: on a board that is made and put back once. Lags, and events behind the cage's last, show nowhere to them. It says where the neighbours end.
    fn stretch(&mut self, e: usize, log: &mut Log<'_>) -> usize
        requires { e < self.old.events }
        ensures { (e < result) × (result ≤ self.old.events) × Done (between_attempts e result) self.old log.old self.new log.new }
    {
        let all = Home {
            table: self.windows,
            events: self.events,
            subject: e,
        };
        let to = all.stretch_end();
        let end = all.cage_end();
        let home = Home {
            table: &self.windows[..5 * end],
            events: end,
            subject: e,
        };
        let job = self.job_of(cage_of(self.windows, e), end);
        let mut s = Board::blank();
        home.mask(self.board, &mut s);
        let mut cage = CageJob {
            board: &mut s,
            lags: &[],
            job,
        };
        cage.events_between(e, to, log);
        home.join(&s, self.board);
        to
    }

    // All events in order, neighbours of one cage at once. A `while`: each stretch says where the next begins, so a range or an iterator of stretches would be no plainer.
    fn each_event(&mut self, log: &mut Log<'_>)
        ensures { Done events_attempts self.old log.old self.new log.new }
    {
        let mut e = 0;
        while e < self.events {
            e = self.stretch(e, log);
        }
    }

    // Lags read neither cages nor amounts: all of them as in a job of the first cage alone.
    // That job is made here and in `together`: a function that lends it was tried, and its proof did not close, since the board passes on a `&mut` past what holds of the call.
    fn each_lag(&mut self, log: &mut Log<'_>)
        ensures { Done lags_attempts self.old log.old self.new log.new }
    {
        let n = self.events;
        let job = self.job_of(0, n);
        let mut cage = CageJob {
            board: &mut *self.board,
            lags: self.lags,
            job,
        };
        cage.all_lags(log);
    }

    // All events of a job of one cage, at once.
    fn together(&mut self, log: &mut Log<'_>)
        requires { length self.old.cages.now ≡ 4 }
        ensures { Done events_attempts self.old log.old self.new log.new }
    {
        let n = self.events;
        let job = self.job_of(0, n);
        let mut cage = CageJob {
            board: &mut *self.board,
            lags: self.lags,
            job,
        };
        cage.all_events(log);
    }

    // All events in order: of one cage at once, of several neighbours of one cage at once, as it sees them.
    fn every_event(&mut self, log: &mut Log<'_>)
        ensures { Done events_attempts self.old log.old self.new log.new }
    {
        if self.cages.len() == 4 {
            self.together(log);
            return;
        }
        self.each_event(log);
    }

    // A round: lags in table order, then sets in order, then events in order.
    pub fn turn(&mut self, log: &mut Log<'_>)
        ensures { Done agenda self.old log.old self.new log.new }
    {
        self.each_lag(log);
        all_sets(self.board, self.events, self.sets, log);
        self.every_event(log);
    }
}
