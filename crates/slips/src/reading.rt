// A slip (question 13), its facts and the trailer read from a list, whatever words it holds.
ghost use Rattle.std.specs.Prelude.{◌≡◌, ◌+◌, ◌≤◌, length};
ghost use Rattle.model.specs.Reader.{reading};
ghost use Rattle.slips.specs.Slip.{Ruled, Counted, premise_of, premise_at, reading_of, Placed, Trails};

use crate::{Fact, Facts, HEAD_WORDS, MOST_FACTS, Slip, Trailer, slip_length};
use rules::Rule;
use tables::Word;

// The rule of which the word is the number.
fn known_rule(w: Word) -> Option<Rule>
    ensures { Ruled w.0 result }
{
    Rule::try_from(w).ok()
}

// The number of facts that the word says: 0..256.
fn known_count(w: Word) -> Option<usize>
    ensures { Counted w.0 result }
{
    (0..=MOST_FACTS).contains(&w.0).then(|| w.index())
}

// 13. The slip at p and the place after it, if it is whole in the words before the trailer, its rule known, 0 to 256 facts, length right.
pub fn read_slip(words: &[i32], p: usize) -> Option<(Slip<'_>, usize)>
    requires { p ≤ length words.now }
    ensures { (reading_of result ≡ reading words.now (length words.now) p) × Placed (length words.now) result }
{
    let left = words.len() - p;
    if left <= HEAD_WORDS {
        return None;
    }
    let rule = known_rule(Word::word_at(words, p))?;
    let count = known_count(Word::word_at(words, p + 5))?;
    let size = slip_length(count);
    if left < size {
        return None;
    }
    let last = p + size - 1;
    if !Word::word_at(words, last).word_is(size) {
        return None;
    }
    let slip = Slip {
        rule,
        subject: Word::word_at(words, p + 1),
        target: Word::word_at(words, p + 2),
        kind: Word::word_at(words, p + 3),
        value: Word::word_at(words, p + 4),
        facts: Facts {
            words: &words[p + HEAD_WORDS..last],
        },
    };
    Some((slip, p + size))
}

// The fact at p.
pub fn fact_at(list: &[i32], p: usize) -> Fact
    requires { p + 3 ≤ length list.now }
    ensures { premise_of result ≡ premise_at list.now p }
{
    Fact {
        event: Word::word_at(list, p),
        kind: Word::word_at(list, p + 1),
        value: Word::word_at(list, p + 2),
    }
}

impl<'a> Iterator for Facts<'a> {
    type Item = Fact;

    ghost use Rattle.std.specs.Prelude.{length};
    ghost use Rattle.std.specs.Iterator.{at_most};
    ghost use Rattle.slips.specs.Slip.{Gives};

    ghost next_gives = { Gives };

    ghost remaining = { λ s. at_most (length s.words.now) };

    fn next(&mut self) -> Option<Fact> {
        let words = self.words;
        if words.len() < 3 {
            return None;
        }
        self.words = &words[3..];
        Some(fact_at(words, 0))
    }
}

// The trailer, a list's last three words.
pub fn trailer_of(list: &[i32]) -> Trailer
    requires { 3 ≤ length list.now }
    ensures { Trails list.now result }
{
    let stop = list.len() - 3;
    Trailer {
        slips: Word::word_at(list, stop),
        last: Word::word_at(list, stop + 1),
        mark: Word::word_at(list, stop + 2),
    }
}
