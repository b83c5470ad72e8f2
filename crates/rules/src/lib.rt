// What each of the rules gives on a board of windows, and what that does to the target's window.
#![tactic(auto)]

pub mod bounds; // bounds.rt: what the families of reservoir rules give in a view
pub mod lags; // lags.rt: a lag, rules 1 and 2
pub mod numbers; // numbers.rt: the rules and their numbers
pub mod findings; // findings.rt: what each rule gives
pub mod effects; // effects.rt: what that does to the target's window

ghost use Rattle.rules.specs.Values.{Tried};

use tables::{Board, Job, Word};

// What a reservoir rule is about: the level's conflict, e's time, an amount.
#[derive(Clone, Copy, PartialEq, Eq)]
pub enum Family {
    Level,
    Time,
    Height,
}

// Rules 3 to 14: the job or its mirror, before (strict) or by, and the family.
#[derive(Clone, Copy, PartialEq, Eq)]
pub struct Variant {
    pub mirror: bool,
    pub strict: bool,
    pub family: Family,
}

// A rule: 1 and 2 of a lag; 3 to 14 of a reservoir; 17, in the mirror 18, of a set.
#[derive(Clone, Copy, PartialEq, Eq)]
pub enum Rule {
    LagUpper,
    LagLower,
    Reservoir(Variant),
    Total { mirror: bool },
}

// What a rule gives: nothing, a conflict of the levels, or a bound on its target: three cases of one standing, and so no Option in a Result.
#[derive(Clone, Copy)]
pub enum Finding {
    Nothing,
    Clash,
    Bound(Word),
}

// What a finding does to its target's window: nothing, a new end, a conflict; three cases of one standing, too.
#[derive(Clone, Copy)]
pub enum Effect {
    Idle,
    Narrows(Word),
    Fails,
}

// A rule of 1..14 that is tried: the board and the lag words of a job of one cage, the rule, its subject (a lag number in rules 1 and 2) and its target.
#[derive(Clone, Copy)]
pub struct Attempt<'a> {
    pub board: &'a Board,
    pub lags: &'a [i32],
    pub job: Job,
    pub rule: Rule,
    pub subject: usize,
    pub target: usize,
    pub ghost tried: { Tried job lags.now board.now.words rule subject target },
}
