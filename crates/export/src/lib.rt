// Planner and reader for programs in Rust or C: plain numbers and word tables, each table as a pointer and a length.
// Each call returns its refusal number or 0, and writes five words: place or 0, outcome (settled 0, conflict 1, stopped 2, open 3), slips,
// rounds, length. The last three are 0 from the reader; all but the place are 0 when refused.
// A caller in another language lends whole tables, and those that are written apart from all others: no contract can ask it.
#![tactic(auto)]

ghost use Rattle.std.specs.Prelude.{◌≡◌, pos};
ghost use Rattle.tables.specs.Job.{call};
ghost use Rattle.model.specs.Planner.{plan};
ghost use Rattle.model.specs.Reader.{check};
ghost use Rattle.propagator.specs.Plans.{reply_of as answer_reply};
ghost use Rattle.checker.specs.Judgement.{reply_of as judgement_reply};
ghost use Rattle.export.specs.Words.{numbers_of, told, Small};

use checker::{Judgement, check};
use propagator::plans::plan;
use propagator::{Answer, Verdict};
use questions::Refusal;

// A reply in plain numbers: the refusal's number or 0, and the five words.
#[derive(Clone, Copy)]
pub struct Numbers {
    pub number: usize,
    pub place: usize,
    pub outcome: usize,
    pub slips: usize,
    pub rounds: usize,
    pub length: usize,
}

// No refusal, and five words of 0.
const NONE: Numbers = Numbers {
    number: 0,
    place: 0,
    outcome: 0,
    slips: 0,
    rounds: 0,
    length: 0,
};

// A refusal's number and place.
fn refused(r: Refusal) -> Numbers
    ensures { result ≡ numbers_of (answer_reply (Err r)) }
{
    Numbers {
        number: r.question.number(),
        place: r.place,
        ..NONE
    }
}

// The planner's reply.
fn planned(reply: Result<Answer, Refusal>) -> Numbers
    ensures { result ≡ numbers_of (answer_reply reply) }
{
    match reply {
        Ok(a) => Numbers {
            outcome: match a.verdict {
                Verdict::Settled => 0,
                Verdict::Conflict => 1,
                Verdict::Stopped => 2,
            },
            slips: a.slips,
            rounds: a.rounds,
            length: a.length,
            ..NONE
        },
        Err(r) => refused(r),
    }
}

// The reader's reply: no counts.
fn judged(reply: Result<Judgement, Refusal>) -> Numbers
    ensures { result ≡ numbers_of (judgement_reply reply) }
{
    match reply {
        Ok(v) => Numbers {
            outcome: match v {
                Judgement::Open => 3,
                Judgement::Conflict => 1,
            },
            ..NONE
        },
        Err(r) => refused(r),
    }
}

// Writes the five words, if there is room for five, and hands back the refusal's number or 0.
#[tactic(auto, unfolding(crate::specs::Words::told))]
fn tell(n: Numbers, words: &mut [i32]) -> i32
    requires { Small n }
    ensures value { result ≡ pos n.number }
    ensures words_after { words.new ≡ told n words.old }
{
    if 5 <= words.len() {
        words[..5].copy_from_slice(&[
            n.place as i32,
            n.outcome as i32,
            n.slips as i32,
            n.rounds as i32,
            n.length as i32,
        ]);
    }
    n.number as i32
}

// The planner: number, answer words, window table and slip buffer, all as document 01 says. The answer words are written where there is room for five.
// It rules out a call that tells a refusal as taken (refused_as_0) and one that writes place and outcome in each other's word (place_for_outcome).
#[unsafe(no_mangle)]
pub extern "C" fn orthmuzi_plan(
    h: i32,
    cages: &[i32],
    table: &mut [i32],
    lags: &[i32],
    sets: &[i32],
    limit: i32,
    buffer: &mut [i32],
    words: &mut [i32],
) -> i32
    ensures number { result ≡ pos (numbers_of (plan (call h cages.now table.old lags.now sets.now) limit buffer.old).reply).number }
    ensures answer { words.new ≡ told (numbers_of (plan (call h cages.now table.old lags.now sets.now) limit buffer.old).reply) words.old }
    ensures windows { table.new ≡ (plan (call h cages.now table.old lags.now sets.now) limit buffer.old).table }
    ensures slips { buffer.new ≡ (plan (call h cages.now table.old lags.now sets.now) limit buffer.old).buffer }
{
    let reply = plan(h, cages, table, lags, sets, limit, buffer);
    tell(planned(reply), words)
}

// The reader: number, answer words and window table, whatever words the list holds.
// It rules out a call that tells an open list as settled (open_as_settled) and, as above, place_for_outcome.
#[unsafe(no_mangle)]
pub extern "C" fn orthmuzi_read(
    h: i32,
    cages: &[i32],
    table: &mut [i32],
    lags: &[i32],
    sets: &[i32],
    list: &[i32],
    words: &mut [i32],
) -> i32
    ensures number { result ≡ pos (numbers_of (check (call h cages.now table.old lags.now sets.now) list.now).reply).number }
    ensures answer { words.new ≡ told (numbers_of (check (call h cages.now table.old lags.now sets.now) list.now).reply) words.old }
    ensures windows { table.new ≡ (check (call h cages.now table.old lags.now sets.now) list.now).table }
{
    let reply = check(h, cages, table, lags, sets, list);
    tell(judged(reply), words)
}
