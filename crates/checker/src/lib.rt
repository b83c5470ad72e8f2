// The slip reader: accepts or refuses any list of slips, whoever wrote it.
#![tactic(auto)]

pub mod turns; // turns.rt: all slips in turn, each narrowing made before the next

ghost use Rattle.std.specs.Prelude.{◌≡◌, ◌<◌, ◌≤◌, length};
ghost use Rattle.model.specs.Reader.{marked, ends_right, read_all, judged, check};
ghost use Rattle.tables.specs.Board.{table_of};
ghost use Rattle.tables.specs.Job.{call};
ghost use Rattle.judging.specs.Ready.{job_of};
ghost use Rattle.checker.specs.Turns.{Called};
ghost use Rattle.checker.specs.Judgement.{reply_of, left_by, closing_reply, Passing, Trailed, Judges};

use crate::turns::read_slips;
use judging::Call;
use judging::opened::widen;
use questions::asked::{ask, questions};
use questions::{Question, Refusal};
use slips::MARK;
use slips::reading::trailer_of;
use std::fmt;
use tables::{Board, Job, Time};

// The reader's answer to a list that it accepts.
#[derive(Clone, Copy, PartialEq, Eq)]
pub enum Judgement {
    Open,
    Conflict,
}

impl fmt::Display for Judgement {
    fn fmt<W: fmt::Write>(&self, f: &mut fmt::Formatter<W>) -> fmt::Result {
        f.write_str(match self {
            Judgement::Open => "open",
            Judgement::Conflict => "conflict",
        })
    }
}

// The slips read so far: where the last one ends and begins, and whether it is a conflict.
#[derive(Clone, Copy)]
pub struct Tail {
    pub after: usize,
    pub last: usize,
    pub conflict: bool,
}

// ---- the trailer

// 12. Is the last word 4207 and the count not negative?
fn is_marked(list: &[i32]) -> bool
    requires { 3 ≤ length list.now }
    ensures { result ≡ marked list.now }
{
    let trailer = trailer_of(list);
    trailer.mark.word_is(MARK) && trailer.slips.not_negative()
}

// 19. Do the slips end at the trailer, its second word where the last begins?
fn ends_right(list: &[i32], tail: Tail) -> bool
    requires { (3 ≤ length list.now) × (tail.last < 2147483648) }
    ensures { result ≡ ends_right list.now tail.after tail.last }
{
    let trailer = trailer_of(list);
    tail.after == list.len() - 3 && trailer.last.word_is(tail.last)
}

// The judgement on a list whose slips were all read: open or conflict, if it ends right.
fn closing(list: &[i32], tail: Tail) -> Result<Judgement, Refusal>
    requires { (3 ≤ length list.now) × (tail.last < 2147483648) }
    ensures { reply_of result ≡ closing_reply list.now tail }
{
    ask(Question::Ending, ends_right(list, tail))?;
    Ok(if tail.conflict {
        Judgement::Conflict
    } else {
        Judgement::Open
    })
}

// ---- the call

// 13 to 19 over the board of the windows sent in. Accepted, the board holds the windows narrowed.
fn judge_slips(b: &mut Board, c: &Call, list: &[i32]) -> Result<Judgement, Refusal>
    requires { Called c.now b.old.words × Trailed list.now }
    ensures { Judges
        (judged (job_of c.now) list.now (read_all (job_of c.now) list.now))
        (left_by result (table_of c.now.job.events c.now.table.now b.new.words) c.now.table.now)
        result }
{
    let count = trailer_of(list).slips.index();
    let tail = read_slips(b, c, &list[..list.len() - 3], count)?;
    closing(list, tail)
}

// 13 to 19 of a call whose questions up to 12 passed. The windows are stored once, at the end, and only if the whole list is accepted.
// The tables stand one by one, since the window table is written where `Call` only reads it.
fn judge(
    h: Time,
    cages: &[i32],
    table: &mut [i32],
    lags: &[i32],
    sets: &[i32],
    list: &[i32],
) -> Result<Judgement, Refusal>
    requires { Passing h.0 cages.now table.old lags.now sets.now list.now }
    ensures { Judges
        (judged (call h.0 cages.now table.old lags.now sets.now) list.now
        (read_all (call h.0 cages.now table.old lags.now sets.now) list.now))
        table.new
        result }
{
    let job = Job::of_cage(h, cages, 0, table.len() / 5);
    let mut b = Board::blank();
    b.load(table);
    let mut wide = Board::blank();
    widen(&b, job, &mut wide);
    let call = Call {
        job,
        cages,
        table,
        lags,
        sets,
        wide: &wide,
    };
    let judgement = judge_slips(&mut b, &call, list)?;
    b.unload(table);
    Ok(judgement)
}

// The slip reader: whatever words the list holds, it is accepted, the windows narrowed, or refused by number and place, no word changed.
// It rules out a reader that accepts every list (accepts_every_list) and one that leaves a narrowed window behind (narrowed_window_left).
// The tables stand one by one, as the C interface lends them.
#[tactic(auto, using(crate::proofs::Judging::room_there), unfolding(model::specs::Reader::check))]
pub fn check(
    h: i32,
    cages: &[i32],
    table: &mut [i32],
    lags: &[i32],
    sets: &[i32],
    list: &[i32],
) -> Result<Judgement, Refusal>
    ensures answer { reply_of result ≡ (check (call h cages.now table.old lags.now sets.now) list.now).reply }
    ensures windows { table.new ≡ (check (call h cages.now table.old lags.now sets.now) list.now).table }
{
    let horizon = Time(h);
    questions(horizon, cages, table, lags, sets, list.len())?;
    ask(Question::Trailer, is_marked(list))?;
    judge(horizon, cages, table, lags, sets, list)
}
