// The list so far: how the call stands, a slip entered.
ghost use Rattle.std.specs.Prelude.{◌≡◌, List, ◌+◌, ◌≤◌, ℤ, length};
ghost use Rattle.model.specs.Rounds.{start};
ghost use Rattle.rules.specs.Values.{effect_of};
ghost use Rattle.slips.specs.Telling.{written_by, Writable};
ghost use Rattle.rounds.specs.State.{status_of, still, room, state_at};
ghost use Rattle.rounds.specs.Attempts.{status_after, written, Counted, Entered};

use crate::{Log, Status};
use rules::Effect;
use slips::writer::Writer;
use slips::writing::Quoting;
use slips::{Header, LONGEST_WITH_TRAILER, TRAILER_WORDS, slip_length};

// How the call stands after an effect.
fn status_after(x: Effect) -> Status
    ensures { status_of result ≡ status_after (effect_of x) }
{
    match x {
        Effect::Idle | Effect::Narrows(_) => Status::Running,
        Effect::Fails => Status::Conflict,
    }
}

impl Status {
    // Does a call that stands so go on?
    pub fn is_running(self) -> bool
        ensures { result ≡ still (status_of self) }
    {
        self == Status::Running
    }

    // Was the slip written that was last entered?
    pub fn is_written(self) -> bool
        ensures { result ≡ written (status_of self) }
    {
        self != Status::Stopped
    }
}

impl<'a> Log<'a> {
    // The list in a lent buffer, no slip yet.
    pub fn new(buffer: &'a mut [i32]) -> Log<'a>
        requires { (3 ≤ length buffer.old) × (length buffer.old ≤ 1000000) }
        ensures same_buffer { result.buffer.ghost_name ≡ buffer.entry.ghost_name }
        ensures words { result.buffer.now ≡ buffer.old }
        ensures begun { (t : List ℤ) → state_at t result ≡ start t }
    {
        Log {
            buffer,
            used: 0,
            slips: 0,
            last: 0,
            status: Status::Running,
        }
    }

    // Does the call go on?
    pub fn is_running(&self) -> bool
        ensures { result ≡ still (status_of self.now.status) }
    {
        self.status.is_running()
    }

    // Was the slip written that was last entered?
    pub fn is_written(&self) -> bool
        ensures { result ≡ written (status_of self.now.status) }
    {
        self.status.is_written()
    }

    // The slip in the buffer behind the list counted, which ends at a place and has an effect.
    fn count(&mut self, end: usize, x: Effect)
        requires { (self.old.used + 7 ≤ end) × (end + 3 ≤ room self.old) }
        ensures { Counted end (status_after (effect_of x)) self.old self.new }
    {
        self.last = self.used;
        self.used = end;
        self.slips += 1;
        self.status = status_after(x);
    }

    // A slip with this header, whose facts are those quoted: counted, held against the room, written. Where it does not fit, the call stops and nothing is written.
    pub fn enter(&mut self, header: Header, facts: &Quoting)
        requires { Writable header facts.now }
        ensures { Entered (written_by header facts.now) (status_after (effect_of header.effect)) self.old self.new }
    {
        let room = self.buffer.len();
        let at = self.used;
        let words = &mut *self.buffer;
        let mut list = Writer { words, at };
        if list.at + LONGEST_WITH_TRAILER <= room {
            list.put_slip(header, facts);
            let end = list.at;
            self.count(end, header.effect);
            return;
        }
        let count = facts.count();
        if list.at + slip_length(count) + TRAILER_WORDS > room {
            self.status = Status::Stopped;
            return;
        }
        list.append_slip(header, facts, count);
        let end = list.at;
        self.count(end, header.effect);
    }
}
