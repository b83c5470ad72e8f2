// Tests that show rules to do nothing, so that a round passes them over.
#![tactic(auto)]

pub mod slack; // slack.rt: what a level leaves over its limit, and whether a target can be moved by it
pub mod calm; // calm.rt: sums that show rules at an event, and lags, to do nothing

ghost use Rattle.silence.specs.Standing.{Standing};

use tables::{Board, Job};

// A job of one cage and the board of its windows, the numbers of both in range.
#[derive(Clone, Copy)]
pub struct OneCage<'a> {
    pub board: &'a Board,
    pub job: Job,
    pub ghost standing: { Standing job board.now.words },
}
