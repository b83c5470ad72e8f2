// The line of a record: what planner or reader answers, and the checksums of both tables as the call left them.
use super::records::{Called, Record};
use super::words::checksum;
use checker::{Judgement, check};
use propagator::Answer;
use propagator::plans::plan;
use questions::Refusal;
use std::fmt;
use std::fmt::Write;

// The planner's reply, with the list's length.
fn planned(out: &mut impl Write, reply: Result<Answer, Refusal>) -> fmt::Result {
    match reply {
        Ok(answer) => write!(out, "plan {answer} {}", answer.length),
        Err(refusal) => write!(out, "plan {refusal}"),
    }
}

// The reader's reply.
fn judged(out: &mut impl Write, reply: Result<Judgement, Refusal>) -> fmt::Result {
    match reply {
        Ok(judgement) => write!(out, "read {judgement}"),
        Err(refusal) => write!(out, "read {refusal}"),
    }
}

// The call made, and its line.
pub fn answer(out: &mut impl Write, r: Record<'_>) -> fmt::Result {
    let Record {
        called,
        horizon,
        limit,
        cages,
        windows,
        lags,
        sets,
        list,
    } = r;
    match called {
        Called::Planner => planned(out, plan(horizon, cages, windows, lags, sets, limit, list))?,
        Called::Reader => judged(out, check(horizon, cages, windows, lags, sets, list))?,
    }
    writeln!(out, " {} {}", checksum(windows), checksum(list))
}
