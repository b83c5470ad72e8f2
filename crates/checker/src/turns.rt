// All slips in turn, each narrowing made before the next.
ghost use Rattle.std.specs.Prelude.{◌≡◌, false, List, ℕ, ◌<◌, ◌≤◌, ℤ, length};
ghost use Rattle.model.specs.Job.{widest};
ghost use Rattle.model.specs.Reader.{applied, read_from};
ghost use Rattle.tables.specs.Board.{table_of};
ghost use Rattle.slips.specs.Slip.{explanation_of};
ghost use Rattle.judging.specs.Ready.{job_of, ReadyFor};
ghost use Rattle.checker.specs.Turns.{Applies, Stepped, Called, Ends};

use crate::Tail;
use judging::giving::slip_questions;
use judging::{Call, Named};
use questions::{Question, Refusal};
use slips::reading::read_slip;
use tables::Board;

// The slip's narrowing made; a conflict makes none.
fn apply(b: &mut Board, s: &Named)
    requires { s.now.target < 64 }
    ensures { (n : ℕ) →
        Applies n s.now →
        (sent : List ℤ) →
        table_of n sent b.new.words ≡ applied (table_of n sent b.old.words) (explanation_of s.now.slip) }
{
    if let Some(bound) = s.bound {
        b.set_end(s.slip.rule.own_end(), s.target, bound);
    }
}

// 13 to 18 of the slip at p, with its narrowing made; left slips follow it.
fn take_slip(
    b: &mut Board,
    c: &Call,
    slips: &[i32],
    p: usize,
    left: usize,
) -> Result<Tail, Question>
    requires { ReadyFor c.now b.old.words × (p ≤ length slips.now) }
    ensures { Stepped c.now slips.now (length slips.now) p left b.old.words b.new.words result }
{
    let Some((slip, next)) = read_slip(slips, p) else {
        return Err(Question::Slip);
    };
    let named = slip_questions(b, c, &slip, left)?;
    apply(b, &named);
    Ok(Tail {
        after: next,
        last: p,
        conflict: named.bound.is_none(),
    })
}

// 13 to 18 of count slips in turn, each narrowing made before the next slip. The slips are the list's words before its trailer.
pub fn read_slips(b: &mut Board, c: &Call, slips: &[i32], count: usize) -> Result<Tail, Refusal>
    requires { Called c.now b.old.words }
    ensures { Ends c.now
        (read_from (job_of c.now) (widest (job_of c.now)) slips.now (length slips.now) count 0 0 0 false c.now.table.now)
        b.new.words
        (length slips.now)
        result }
{
    let mut tail = Tail {
        after: 0,
        last: 0,
        conflict: false,
    };
    for i in 0..count {
        let left = count - i - 1;
        tail = take_slip(b, c, slips, tail.after, left).map_err(|question| Refusal {
            question,
            place: i,
        })?;
    }
    Ok(tail)
}
