// A slip and the trailer as words, appended to the list in the slip buffer.
ghost use Rattle.std.specs.Prelude.{◌≡◌, [], ◌∷◌, ◌+◌, ◌*◌, ◌<◌, ◌≤◌, pos, length};
ghost use Rattle.model.specs.Slips.{slip_words, trailer, concluded_value};
ghost use Rattle.tables.specs.Ends.{end_of};
ghost use Rattle.rules.specs.Values.{effect_of};
ghost use Rattle.slips.specs.Slip.{kind_at};
ghost use Rattle.slips.specs.Writing.{HasRoom, Wrote};
ghost use Rattle.slips.specs.Telling.{written_by, Writable};

use crate::writer::Writer;
use crate::writing::Quoting;
use crate::{HEAD_WORDS, Header, MARK, slip_length};
use rules::Effect;
use tables::Word;

impl Header {
    // What the slip concludes with: the kind of its bound and the bound, or 0 and 0 for a conflict.
    fn conclusion(self) -> (usize, Word)
        ensures { (result.0 ≡ kind_at (end_of self.end) (effect_of self.effect))
            × (result.1.0 ≡ concluded_value (effect_of self.effect))
            × (result.0 ≤ 4) }
    {
        match self.effect {
            Effect::Narrows(bound) => (self.end.kind(), bound),
            Effect::Idle | Effect::Fails => (0, Word(0)),
        }
    }
}

impl<'a> Writer<'a> {
    // The words of a slip before its facts, which are as many as `facts` says.
    fn put_head(&mut self, h: Header, facts: usize)
        requires { HasRoom 6 self.old
            × (h.number ≤ 18)
            × (h.subject ≤ 256)
            × (h.target ≤ 64)
            × (facts ≤ 256) }
        ensures words { Wrote
            (pos h.number ∷ pos h.subject ∷ pos h.target ∷ pos (kind_at (end_of h.end) (effect_of h.effect)) ∷ concluded_value (effect_of h.effect) ∷ pos facts ∷ [])
            self.old self.new }
        ensures same_buffer { self.new.words.ghost_name ≡ self.old.words.ghost_name }
    {
        let (kind, value) = h.conclusion();
        self.put([
            h.number as i32,
            h.subject as i32,
            h.target as i32,
            kind as i32,
            value.0,
            facts as i32,
        ]);
    }

    // The last word of a slip with so many facts: how many words it has.
    fn put_length(&mut self, facts: usize)
        requires { HasRoom 1 self.old × (facts ≤ 256) }
        ensures words { Wrote (pos (7 + 3 * facts) ∷ []) self.old self.new }
        ensures same_buffer { self.new.words.ghost_name ≡ self.old.words.ghost_name }
    {
        self.put([slip_length(facts) as i32]);
    }

    // A slip appended, whose facts are as many as `facts` says.
    pub fn append_slip(&mut self, h: Header, quoting: &Quoting, facts: usize)
        requires { Writable h quoting.now
            × (facts ≡ length (written_by h quoting.now).premises)
            × HasRoom (7 + 3 * facts) self.old }
        ensures words { Wrote (slip_words (written_by h quoting.now)) self.old self.new }
        ensures same_buffer { self.new.words.ghost_name ≡ self.old.words.ghost_name }
    {
        self.put_head(h, facts);
        self.put_facts(quoting);
        self.put_length(facts);
    }

    // The same where there is room for as many facts as there can be: the facts are written first, and so counted. It stands beside `append_slip`: to count first was tried, and a call that writes slips takes a quarter to a third longer.
    pub fn put_slip(&mut self, h: Header, quoting: &Quoting)
        requires { Writable h quoting.now × HasRoom 775 self.old }
        ensures words { Wrote (slip_words (written_by h quoting.now)) self.old self.new }
        ensures same_buffer { self.new.words.ghost_name ≡ self.old.words.ghost_name }
    {
        let head = self.at;
        let first = head + HEAD_WORDS;
        self.at = first;
        self.put_facts(quoting);
        let last = self.at;
        let facts = (last - first) / 3;
        self.at = head;
        self.put_head(h, facts);
        self.at = last;
        self.put_length(facts);
    }

    // The trailer appended: number of slips, where the last slip begins, mark 4207.
    pub fn append_trailer(&mut self, slips: usize, last: usize)
        requires { HasRoom 3 self.old × (slips < 2147483648) × (last < 2147483648) }
        ensures words { Wrote (trailer slips last) self.old self.new }
        ensures same_buffer { self.new.words.ghost_name ≡ self.old.words.ghost_name }
    {
        self.put([slips as i32, last as i32, MARK as i32]);
    }
}
