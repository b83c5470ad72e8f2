// The whole call: its questions, the run on a board, the list's trailer and the window table written back.
ghost use Rattle.std.specs.Prelude.{◌≡◌, length};
ghost use Rattle.model.specs.Questions.{pass, plan_questions};
ghost use Rattle.model.specs.Planner.{plan};
ghost use Rattle.tables.specs.Job.{call};
ghost use Rattle.propagator.specs.Plans.{reply_of, Outcomes};

use crate::Answer;
use crate::runs::{fuel, run};
use questions::Refusal;
use questions::asked::plan_questions;
use rounds::Log;
use slips::writer::Writer;
use tables::{Board, Time};
use turns::Call;

// The run of a call whose questions passed, with both lent tables written. They stand one by one, since the window table is written where `Call` only reads it.
fn planned(
    horizon: Time,
    cages: &[i32],
    table: &mut [i32],
    lags: &[i32],
    sets: &[i32],
    limit: i32,
    buffer: &mut [i32],
) -> Answer
    requires { plan_questions (call horizon.0 cages.now table.old lags.now sets.now) limit (length buffer.old) ≡ pass }
    ensures { Outcomes
        (plan (call horizon.0 cages.now table.old lags.now sets.now) limit buffer.old)
        table.new buffer.new (Ok result) }
{
    let events = table.len() / 5;
    let mut board = Board::blank();
    board.load(table);
    let most = fuel(limit, buffer.len());
    let mut call = Call {
        board: &mut board,
        events,
        horizon,
        cages,
        windows: &*table,
        lags,
        sets,
    };
    let mut log = Log::new(buffer);
    let ended = run(&mut call, &mut log, most);
    let (used, slips, last) = (log.used, log.slips, log.last);
    let mut list = Writer {
        words: buffer,
        at: used,
    };
    list.append_trailer(slips, last);
    board.unload(table);
    Answer {
        verdict: ended.verdict,
        slips,
        rounds: ended.rounds,
        length: list.at,
    }
}

// The planner with a round limit, 0 for none: the reply, and every word of the window table and the slip buffer, as the papers say. A refusal changes no lent word.
// It rules out a planner that writes no slip (no_slip) and one that answers conflict always (conflict_always).
// The tables stand one by one, as the C interface lends them.
#[tactic(auto, unfolding(model::specs::Planner::plan))]
pub fn plan(
    h: i32,
    cages: &[i32],
    table: &mut [i32],
    lags: &[i32],
    sets: &[i32],
    limit: i32,
    buffer: &mut [i32],
) -> Result<Answer, Refusal>
    ensures answer { reply_of result ≡ (plan (call h cages.now table.old lags.now sets.now) limit buffer.old).reply }
    ensures windows { table.new ≡ (plan (call h cages.now table.old lags.now sets.now) limit buffer.old).table }
    ensures slips { buffer.new ≡ (plan (call h cages.now table.old lags.now sets.now) limit buffer.old).buffer }
{
    let horizon = Time(h);
    plan_questions(horizon, cages, table, lags, sets, limit, buffer.len())?;
    Ok(planned(horizon, cages, table, lags, sets, limit, buffer))
}
