// The facts of a slip: 14 and 15, and windows narrowed by them. That n is at most 64 stays in contracts, as in the questions' asked.rt.
ghost use Rattle.std.specs.Prelude.{◌≡◌, ◌≤◌, T};
ghost use Rattle.model.specs.Slips.{premise_event, premise_end};
ghost use Rattle.model.specs.Reader.{narrow, narrowed, all_true, premises_fit};
ghost use Rattle.tables.specs.Board.{board};
ghost use Rattle.slips.specs.Slip.{premise_of, premises_in};
ghost use Rattle.judging.specs.Ready.{fits_one, true_of, Names, Same};

use slips::{Fact, Facts};
use tables::{Board, End};

// 14. Is it a fact of an event of n, of kind 1..4?
fn fact_fits(f: Fact, n: usize) -> bool
    requires { n ≤ 64 }
    ensures { result ≡ fits_one n (premise_of f) }
{
    f.event.is_event(n) & End::try_from(f.kind).is_ok()
}

// 14. Does every fact name an event of n and a kind 1..4?
pub fn facts_fit(mut facts: Facts, n: usize) -> bool
    requires { n ≤ 64 }
    ensures { result ≡ premises_fit n (premises_in facts.entry.words.now) }
{
    facts.all(|f| fact_fits(f, n))
}

// 15. Is the fact true of the windows on the board?
fn fact_true(b: &Board, f: Fact) -> bool
    requires { Names 64 (premise_of f) }
    ensures { result ≡ true_of (board b.now.words) (premise_of f) }
{
    let y = f.event.index();
    End::try_from(f.kind).is_ok_and(|end| end.meets(f.value, b.end(end, y)))
}

// 15. Are the facts all true of the windows on the board?
pub fn facts_true(b: &Board, mut facts: Facts) -> bool
    requires { T (premises_fit 64 (premises_in facts.words.now)) }
    ensures { result ≡ all_true (board b.now.words) (premises_in facts.entry.words.now) }
{
    facts.all(|f| fact_true(b, f))
}

// The board narrowed by a fact; a weaker one changes nothing.
fn tighten(b: &mut Board, f: Fact)
    requires { Names 64 (premise_of f) }
    ensures { Same (board b.new.words) (narrow (board b.old.words) (premise_event (premise_of f)) (premise_end (premise_of f)) f.value.0) }
{
    let y = f.event.index();
    if let Ok(end) = End::try_from(f.kind) {
        if !end.meets(f.value, b.end(end, y)) {
            b.set_end(end, y, f.value);
        }
    }
}

// The board narrowed by facts.
pub fn narrow_by(b: &mut Board, facts: Facts)
    requires { T (premises_fit 64 (premises_in facts.words.now)) }
    ensures { Same (board b.new.words) (narrowed (board b.old.words) (premises_in facts.entry.words.now)) }
{
    for f in facts {
        tighten(b, f);
    }
}
