// A round of a call: lags, sets, events. Of one cage all events are taken at once, of several neighbours of one cage, since at each event a job is one of that event's cage, the others neutral.
#![tactic(auto)]

pub mod parts; // parts.rt: the parts of a round

ghost use Rattle.tables.specs.Job.{call};
ghost use Rattle.rounds.specs.Held.{Held};
ghost use Rattle.turns.specs.Works.{Works};

use tables::{Board, Time};

// A call at hand: the board of its windows, its words, all lent, its number of events, which loops and contracts name.
#[derive(Drop)]
pub struct Call<'a> {
    pub board: &'a mut Board,
    pub events: usize,
    pub horizon: Time,
    pub cages: &'a [i32],
    pub windows: &'a [i32],
    pub lags: &'a [i32],
    pub sets: &'a [i32],
    pub ghost held: { Held events board.now.words },
    pub ghost works: { Works (call horizon.0 cages.now windows.now lags.now sets.now) events board.now.words },
}
