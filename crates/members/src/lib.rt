// Rules 17 and 18 of all sets in a round: sets in order, members as listed, for each 17, then 18.
#![tactic(auto)]

pub mod sweeps; // sweeps.rt: the attempts of a set, of all sets

ghost use Rattle.rounds.specs.Held.{Held};
ghost use Rattle.members.specs.Placed.{Placed};

use sets::Set;
use tables::Board;

// A set of a job at hand: the board of the job's events, the set, and its number, the subject of its rules.
#[derive(Drop)]
pub struct SetJob<'a> {
    pub board: &'a mut Board,
    pub events: usize,
    pub set: Set<'a>,
    pub subject: usize,
    pub ghost held: { Held events board.now.words },
    pub ghost placed: { Placed events set.table.now subject set.at },
}
