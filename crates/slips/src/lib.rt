// A slip's words and a list's, written into the slip buffer and read from any list, side by side.
#![tactic(auto)]

pub mod writer; // writer.rt: words appended to a lent buffer
pub mod writing; // writing.rt: the facts of a slip counted and written
pub mod appending; // appending.rt: a slip and the trailer appended to a list
pub mod reading; // reading.rt: a slip, its facts and the trailer read from a list

ghost use Rattle.std.specs.Prelude.{◌≡◌, ◌≤◌};
ghost use Rattle.model.specs.Slips.{slip_length};

use rules::{Effect, Rule};
use tables::{End, Word};

// The trailer's last word.
pub const MARK: usize = 4207;

// A slip that is read has 0 to 256 facts.
pub const MOST_FACTS: i32 = 256;

// The words of a slip before its facts, and of the trailer.
pub const HEAD_WORDS: usize = 6;

pub const TRAILER_WORDS: usize = 3;

// The words of a slip with 256 facts, which no slip passes, and of the trailer.
pub const LONGEST_WITH_TRAILER: usize = 778;

// The words of a slip with so many facts.
pub fn slip_length(facts: usize) -> usize
    requires { facts ≤ 256 }
    ensures { result ≡ slip_length facts }
{
    7 + 3 * facts
}

// What a slip that is written says beside its facts: the number of the rule tried, the end that its bounds are about, its subject and target, and the effect.
#[derive(Clone, Copy)]
pub struct Header {
    pub number: usize,
    pub end: End,
    pub subject: usize,
    pub target: usize,
    pub effect: Effect,
}

// A slip that was read: its header and its facts.
#[derive(Clone, Copy)]
pub struct Slip<'a> {
    pub rule: Rule,
    pub subject: Word,
    pub target: Word,
    pub kind: Word,
    pub value: Word,
    pub facts: Facts<'a>,
}

// Facts that are still to be read, three words each.
#[derive(Clone, Copy)]
pub struct Facts<'a> {
    pub words: &'a [i32],
}

// A fact, as its three words.
#[derive(Clone, Copy)]
pub struct Fact {
    pub event: Word,
    pub kind: Word,
    pub value: Word,
}

// The trailer, as its three words.
#[derive(Clone, Copy)]
pub struct Trailer {
    pub slips: Word,
    pub last: Word,
    pub mark: Word,
}
