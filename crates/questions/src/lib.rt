// The questions put to a call before anything else, in order, and how a call is refused.
#![tactic(auto)]

pub mod asked; // asked.rt: the questions in order
pub mod asked_sets; // asked_sets.rt: 31 to 33, to the set table

ghost use Rattle.std.specs.Prelude.{◌≡◌};
ghost use Rattle.questions.specs.Numbers.{number_of};

use std::fmt;

// A slip buffer or a list has 3 to 1,000,000 words.
pub const LEAST_ROOM: usize = 3;

pub const MOST_ROOM: usize = 1000000;

// A round limit is in 0..1,000,000.
pub const MOST_ROUNDS: i32 = 1000000;

// What a call or a list can be refused by, with the papers' numbers.
#[derive(Clone, Copy, PartialEq, Eq)]
pub enum Question {
    Horizon = 1, // the horizon's range
    Limits = 2, // a cage's limits and opening stock: their range
    Stock = 3, // a cage's opening stock within its limits
    Windows = 4, // the window table's length
    Times = 5, // an event's time window
    Amounts = 6, // an event's amount window
    Lags = 7, // the lag table's length
    LagEvents = 8, // a lag's events are events of the job
    LagPair = 9, // they are two
    LagMinutes = 10, // a lag's minutes: their range
    Room = 11, // the slip buffer's length
    Trailer = 12, // the list's mark and count
    Slip = 13, // a slip is whole
    Names = 14, // what a slip names
    Facts = 15, // a slip's facts are true
    Rule = 16, // its rule gives its conclusion
    Narrows = 17, // a bound narrows a window
    Conflict = 18, // a conflict is the last slip
    Ending = 19, // the slips end at the trailer
    Text = 20, // the program's text
    Cover = 22, // a cage's cover
    Rounds = 28, // the round limit
    Cages = 29, // the cage table's length
    Cage = 30, // an event's cage is a cage of the job
    Set = 31, // a set is whole
    Members = 32, // a set's members
    Totals = 33, // a set's totals
}

impl Question {
    // Its number in the papers.
    pub fn number(self) -> usize
        ensures { result ≡ number_of self }
    {
        self as usize
    }
}

// A refused call: the question, and the cage, event, lag, set or slip concerned (else 0).
#[derive(Clone, Copy, PartialEq, Eq)]
pub struct Refusal {
    pub question: Question,
    pub place: usize,
}

// A question put to the call itself refuses with place 0.
impl From<Question> for Refusal {
    ghost from_gives = { λ q r. (r.question ≡ q) × (r.place ≡ 0) };

    fn from(question: Question) -> Refusal {
        Refusal { question, place: 0 }
    }
}

// "refused", the question's number, the place.
impl fmt::Display for Refusal {
    fn fmt<W: fmt::Write>(&self, f: &mut fmt::Formatter<W>) -> fmt::Result {
        write!(f, "refused {} {}", self.question.number(), self.place)
    }
}
