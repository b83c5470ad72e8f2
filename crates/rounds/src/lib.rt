// A round of the planner (propagator): one attempt, the attempts of a round in order.
#![tactic(auto)]

pub mod attempts; // attempts.rt: one attempt
pub mod logs; // logs.rt: the list so far, a slip entered
pub mod sweeps; // sweeps.rt: the attempts of a round in order

ghost use Rattle.tables.specs.Job.{Fit};
ghost use Rattle.rounds.specs.Held.{Held, Roomy};

use tables::{Board, Job};

// How a call stands: it goes on, or has ended.
#[derive(Clone, Copy, PartialEq, Eq)]
pub enum Status {
    Running,
    Conflict,
    Stopped,
}

// The list so far in the lent slip buffer: words used, number of slips, where the last slip begins; how the call stands.
// Buffer and words used are no `Writer` here: that was tried, and where a struct inside a struct ends, nothing tells the caller what its buffer holds.
#[derive(Drop)]
pub struct Log<'a> {
    pub buffer: &'a mut [i32],
    pub used: usize,
    pub slips: usize,
    pub last: usize,
    pub status: Status,
    pub ghost roomy: { Roomy buffer.now used slips last },
}

// A job of one cage at hand: its board, its lag words.
#[derive(Drop)]
pub struct CageJob<'a> {
    pub board: &'a mut Board,
    pub lags: &'a [i32],
    pub job: Job,
    pub ghost fit: { Fit job lags.now },
    pub ghost held: { Held job.events board.now.words },
}
