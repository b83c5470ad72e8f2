// The four ends of an event's windows, and what is stored and compared there.
ghost use Rattle.std.specs.Prelude.{◌≡◌, ◌<◌, T, pos, nat_abs, length};
ghost use Rattle.std.specs.Int.Signed.{le_z};
ghost use Rattle.integers.specs.Range.{eq_z};
ghost use Rattle.model.specs.Job.{word, meets, opposite};
ghost use Rattle.model.specs.Questions.{is_event};
ghost use Rattle.model.specs.Slips.{at, number};
ghost use Rattle.tables.specs.Ends.{end_of, Named};

use crate::{Height, Time};

// A word of a table or of a list: a time or a height by its end. It is compared and stored, never added.
#[derive(Clone, Copy, PartialEq, Eq, PartialOrd, Ord)]
pub struct Word(pub i32);

impl Word {
    // Word i of a list.
    pub fn word_at(list: &[i32], i: usize) -> Word
        requires { i < length list.now }
        ensures { result.0 ≡ at list.now i }
    {
        Word(list[i])
    }

    // The number that the word is, which is not negative.
    pub fn index(self) -> usize
        requires { T (le_z (pos 0) self.0) }
        ensures { result ≡ nat_abs self.0 }
    {
        self.0 as usize
    }

    // Is it the number n?
    pub fn word_is(self, n: usize) -> bool
        requires { n < 2147483648 }
        ensures { result ≡ eq_z self.0 (pos n) }
    {
        self.0 == n as i32
    }

    // Is it the number of an event, of n?
    pub fn is_event(self, n: usize) -> bool
        requires { n < 2147483648 }
        ensures { result ≡ is_event n self.0 }
    {
        (0..n as i32).contains(&self.0)
    }

    pub fn not_negative(self) -> bool
        ensures { result ≡ le_z (pos 0) self.0 }
    {
        0 <= self.0
    }
}

impl From<Time> for Word {
    ghost from_gives = { λ t w. w.0 ≡ t.0 };

    fn from(t: Time) -> Word {
        Word(t.0)
    }
}

impl From<Height> for Word {
    ghost from_gives = { λ h w. w.0 ≡ h.0 };

    fn from(h: Height) -> Word {
        Word(h.0)
    }
}

impl From<Word> for Time {
    ghost from_gives = { λ w t. t.0 ≡ w.0 };

    fn from(w: Word) -> Time {
        Time(w.0)
    }
}

// An end, with the kind by which a slip names it: t ≥, t ≤, h ≥, h ≤.
#[derive(Clone, Copy, PartialEq, Eq)]
pub enum End {
    TMin = 1,
    TMax = 2,
    HMin = 3,
    HMax = 4,
}

// A word that is the kind of no end.
#[derive(Clone, Copy, PartialEq, Eq)]
pub struct NoEnd;

impl TryFrom<Word> for End {
    type Error = NoEnd;

    ghost try_from_gives = { λ w r. Named w.0 r };

    fn try_from(kind: Word) -> Result<End, NoEnd> {
        match kind.0 {
            1 => Ok(End::TMin),
            2 => Ok(End::TMax),
            3 => Ok(End::HMin),
            4 => Ok(End::HMax),
            _ => Err(NoEnd),
        }
    }
}

impl End {
    // The number of its kind.
    pub fn kind(self) -> usize
        ensures { result ≡ number (end_of self) }
    {
        self as usize
    }

    // Its row on a board.
    pub fn row(self) -> usize
        ensures { result ≡ word (end_of self) }
    {
        self as usize - 1
    }

    // The other end of the same window.
    pub fn opposite(self) -> End
        ensures { end_of result ≡ opposite (end_of self) }
    {
        match self {
            End::TMin => End::TMax,
            End::TMax => End::TMin,
            End::HMin => End::HMax,
            End::HMax => End::HMin,
        }
    }

    // Does x keep the bound v at this end?
    pub fn meets(self, v: Word, x: Word) -> bool
        ensures { result ≡ meets (end_of self) v.0 x.0 }
    {
        match self {
            End::TMin | End::HMin => v <= x,
            End::TMax | End::HMax => x <= v,
        }
    }
}
