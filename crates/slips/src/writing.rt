// The facts of a slip counted, and written into a lent buffer.
ghost use Rattle.std.specs.Prelude.{◌≡◌, cond, Bool, ℕ, ◌*◌, ◌<◌, ◌≤◌, ℤ, length};
ghost use Rattle.integers.specs.Range.{Within};
ghost use Rattle.model.specs.Job.{End as Ended, h_min, h_max, Windows};
ghost use Rattle.model.specs.Standing.{Ranged};
ghost use Rattle.model.specs.Slips.{premise_words, premise_list};
ghost use Rattle.tables.specs.Board.{board};
ghost use Rattle.tables.specs.Ends.{end_of};
ghost use Rattle.slips.specs.Writing.{HasRoom, Wrote};
ghost use Rattle.slips.specs.Telling.{told, told_by, premises_of, told_by_lag, quoted_by, Quotable};

use crate::writer::Writer;
use facts::premises::{quoted, total_quoted};
use facts::{Citing, LagCiting, LevelCiting, TotalCiting};
use tables::{Board, End, Time, Word};

// ---- one event

// The facts of one event that a slip quotes, and what they say: t ≥, t ≤, and the end of its amounts that a slip of a side quotes.
#[derive(Clone, Copy)]
pub struct EventFacts {
    pub lower: Option<Word>,
    pub upper: Option<Word>,
    pub end: End,
    pub height: Option<Word>,
}

impl EventFacts {
    // How many they are.
    fn count(&self) -> usize
        ensures { (z : ℕ) → (result ≡ length (told_by z self.now)) × (result ≤ 3) }
    {
        usize::from(self.lower.is_some())
            + usize::from(self.upper.is_some())
            + usize::from(self.height.is_some())
    }
}

// The end of an amount that is quoted: h ≤, in the mirror h ≥.
fn height_end(mirror: bool) -> End
    ensures { end_of result ≡ cond mirror h_min h_max }
{
    if mirror { End::HMin } else { End::HMax }
}

// What is said of a time of an event: of the subject's own one thing, of the others' another.
fn said(own: bool, first: Time, other: Time) -> Word
    ensures { result.0 ≡ cond own first.0 other.0 }
{
    Word::from(if own { first } else { other })
}

// What decides a slip's facts event by event.
trait ByEvent: Copy {
    // Does the slip quote an end of an event, and what does it say of it?
    ghost cites: { Self → Windows → ℕ → Ended → Bool };

    ghost says: { Self → Windows → ℕ → Ended → ℤ };

    // The facts of event z.
    fn event_facts(self, b: &Board, z: usize) -> EventFacts
        requires { (z < 64) × Within (board b.now.words z h_min) 9999 }
        ensures { told_by z result ≡ premises_of (cites self (board b.now.words)) (says self (board b.now.words)) z };
}

impl ByEvent for LevelCiting {
    ghost use Rattle.facts.specs.Quotes.{level_cited, level_said};

    ghost cites = { level_cited };

    ghost says = { level_said };

    #[inline(always)]
    fn event_facts(self, b: &Board, z: usize) -> EventFacts {
        let f = quoted(b, self, z);
        let own = z == self.view.subject;
        let end = height_end(self.view.stance.mirror);
        EventFacts {
            lower: f.lower.then_some(said(own, self.from, self.after)),
            upper: f.upper.then_some(said(own, self.to, self.until)),
            end,
            height: f.height.then_some(b.end(end, z)),
        }
    }
}

impl ByEvent for TotalCiting {
    ghost use Rattle.facts.specs.Quotes.{set_cited};

    ghost cites = { set_cited };

    ghost says = { λ c W. W };

    fn event_facts(self, b: &Board, z: usize) -> EventFacts {
        let end = height_end(self.mirror);
        EventFacts {
            lower: None,
            upper: None,
            end,
            height: total_quoted(b, self, z).then_some(b.end(end, z)),
        }
    }
}

// ---- counted

// The number of facts of n events.
fn count_events<C: ByEvent>(b: &Board, n: usize, c: C) -> usize
    requires { Ranged n (board b.now.words) }
    ensures { result ≡ length (premise_list n (C.cites c (board b.now.words)) (C.says c (board b.now.words))) }
{
    let mut count = 0;
    for z in 0..n {
        count += c.event_facts(b, z).count();
    }
    count
}

// What a slip quotes: the facts cited, of the events on a board.
#[derive(Clone, Copy)]
pub struct Quoting<'a> {
    pub board: &'a Board,
    pub events: usize,
    pub cited: Citing,
}

impl<'a> Quoting<'a> {
    // The number of facts.
    pub fn count(&self) -> usize
        requires { Quotable self.now }
        ensures { result ≡ length (quoted_by self.now) }
    {
        match self.cited {
            Citing::Lag(c) => { usize::from(c.from.is_some()) + usize::from(c.to.is_some()) },
            Citing::Level(c) => count_events(self.board, self.events, c),
            Citing::Total(c) => count_events(self.board, self.events, c),
        }
    }
}

// ---- written

impl<'a> Writer<'a> {
    // A fact of event y appended, if there is one.
    fn put_fact(&mut self, y: usize, end: End, fact: Option<Word>)
        requires { HasRoom (3 * length (told y (end_of end) fact)) self.old × (y < 64) }
        ensures words { Wrote (premise_words (told y (end_of end) fact)) self.old self.new }
        ensures same_buffer { self.new.words.ghost_name ≡ self.old.words.ghost_name }
    {
        if let Some(value) = fact {
            self.put([y as i32, end.kind() as i32, value.0]);
        }
    }

    // The facts of event z appended.
    fn put_event(&mut self, z: usize, f: &EventFacts)
        requires { HasRoom (3 * length (told_by z f.now)) self.old × (z < 64) }
        ensures words { Wrote (premise_words (told_by z f.now)) self.old self.new }
        ensures same_buffer { self.new.words.ghost_name ≡ self.old.words.ghost_name }
    {
        self.put_fact(z, End::TMin, f.lower);
        self.put_fact(z, End::TMax, f.upper);
        self.put_fact(z, f.end, f.height);
    }

    // The facts of n events appended, event by event; c by value, so that it is not read again after each write.
    fn put_events<C: ByEvent>(&mut self, b: &Board, n: usize, c: C)
        requires { Ranged n (board b.now.words)
            × HasRoom (3 * length (premise_list n (C.cites c (board b.now.words)) (C.says c (board b.now.words)))) self.old }
        ensures words { Wrote (premise_words (premise_list n (C.cites c (board b.now.words)) (C.says c (board b.now.words))))
            self.old self.new }
        ensures same_buffer { self.new.words.ghost_name ≡ self.old.words.ghost_name }
    {
        for z in 0..n {
            self.put_event(z, &c.event_facts(b, z));
        }
    }

    // A lag's two facts appended: t ≥ of a first where a comes no later than b, else t ≤ of b. With no loop over the events: it would ask each of them whether it is a or b.
    fn put_lag(&mut self, c: &LagCiting)
        requires { HasRoom (3 * length (told_by_lag c.now)) self.old × (c.now.a < 64) × (c.now.b < 64) }
        ensures words { Wrote (premise_words (told_by_lag c.now)) self.old self.new }
        ensures same_buffer { self.new.words.ghost_name ≡ self.old.words.ghost_name }
    {
        if c.a <= c.b {
            self.put_fact(c.a, End::TMin, c.from);
            self.put_fact(c.b, End::TMax, c.to);
        } else {
            self.put_fact(c.b, End::TMax, c.to);
            self.put_fact(c.a, End::TMin, c.from);
        }
    }

    // The facts of a slip appended: a lag's at once, a reservoir rule's and a set's event by event.
    pub fn put_facts(&mut self, quoting: &Quoting)
        requires { Quotable quoting.now × HasRoom (3 * length (quoted_by quoting.now)) self.old }
        ensures words { Wrote (premise_words (quoted_by quoting.now)) self.old self.new }
        ensures same_buffer { self.new.words.ghost_name ≡ self.old.words.ghost_name }
    {
        match quoting.cited {
            Citing::Lag(c) => self.put_lag(&c),
            Citing::Level(c) => self.put_events(quoting.board, quoting.events, c),
            Citing::Total(c) => self.put_events(quoting.board, quoting.events, c),
        }
    }
}
