// The planner (propagator): rounds until settled, conflict or stopped, and the whole call.
#![tactic(auto)]

pub mod runs; // runs.rt: rounds until settled, conflict or stopped
pub mod plans; // plans.rt: the whole call

ghost use Rattle.std.specs.Prelude.{◌≡◌};
ghost use Rattle.model.specs.Print.{verdict_name};
ghost use Rattle.propagator.specs.Runs.{verdict_of};

use std::fmt;

// How a run ends.
#[derive(Clone, Copy, PartialEq, Eq)]
pub enum Verdict {
    Settled,
    Conflict,
    Stopped,
}

impl Verdict {
    // Its name in print.
    pub fn name(self) -> &'static str
        ensures { result.now ≡ verdict_name (verdict_of self) }
    {
        match self {
            Verdict::Settled => "settled",
            Verdict::Conflict => "conflict",
            Verdict::Stopped => "stopped",
        }
    }
}

// The end of a run: its verdict, the rounds begun.
#[derive(Clone, Copy)]
pub struct Ended {
    pub verdict: Verdict,
    pub rounds: usize,
}

// The planner's answer: the verdict, the number of slips, the rounds begun, the list's length in words, its trailer included.
#[derive(Clone, Copy, PartialEq, Eq)]
pub struct Answer {
    pub verdict: Verdict,
    pub slips: usize,
    pub rounds: usize,
    pub length: usize,
}

// Its verdict, slips and rounds.
impl fmt::Display for Answer {
    fn fmt<W: fmt::Write>(&self, f: &mut fmt::Formatter<W>) -> fmt::Result {
        write!(f, "{} {} {}", self.verdict.name(), self.slips, self.rounds)
    }
}
