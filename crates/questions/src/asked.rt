// The questions that planner and reader put to a call, in order; words are only compared, so that any word is harmless.
ghost use Rattle.std.specs.Prelude.{◌≡◌, ℕ, Bool, ◌&&◌, ◌||◌, [], ◌+◌, ◌*◌, ◌%◌, ◌<◌, ◌≤◌, eqb, leb, pos, negsuc, length};
ghost use Rattle.std.specs.Int.Signed.{le_z};
ghost use Rattle.model.specs.Job.{windows};
ghost use Rattle.model.specs.Questions.{ask, each, refuse, horizon_right, limit_in_range, limits_right, stock_right, cover_right, times_right, heights_right, cage_right, lag_events, lag_differs, lag_in_range, limit_right, room_right, cage_questions, window_questions, lag_questions, first_questions, own_questions, questions, plan_questions};
ghost use Rattle.tables.specs.Job.{reservoir_of, call};
ghost use Rattle.questions.specs.Numbers.{number_of};
ghost use Rattle.questions.specs.Asked.{check_of, put};

use crate::asked_sets::set_questions;
use crate::{LEAST_ROOM, MOST_ROOM, MOST_ROUNDS, Question, Refusal};
use tables::{
    Height, LEAST_AMOUNT, LEAST_LEVEL, LEAST_MINUTES, MOST_AMOUNT, MOST_LAG_WORDS, MOST_LEVEL,
    MOST_MINUTES, MOST_WINDOW_WORDS, Reservoir, Time, Word, cage_at,
};

// ---- a question put

// Refused by a question, with the place.
pub fn refuse(question: Question, place: usize) -> Result<(), Refusal>
    ensures { check_of result ≡ refuse (number_of question) place }
{
    Err(Refusal { question, place })
}

// A question put: is the answer yes? Where it refuses a call, the place is 0.
pub fn ask(question: Question, yes: bool) -> Result<(), Question>
    ensures { put result ≡ ask (number_of question) yes }
{
    yes.then_some(()).ok_or(question)
}

// A question to the first n cages, events, lags or sets in order, `right` telling the answer of each.
pub fn each<F: Fn(usize) -> bool>(question: Question, n: usize, right: F) -> Result<(), Refusal>
    requires { (i : ℕ) → i < n → F.pre right i }
    ensures { (ok : ℕ → Bool) → ((i : ℕ) → i < n → (r : Bool) → F.post right i r → r ≡ ok i) → check_of result ≡ each (number_of question) ok 0 n }
{
    for i in 0..n {
        if !right(i) {
            return refuse(question, i);
        }
    }
    Ok(())
}

// ---- tests of words

// A range of amounts keeps one sign and is not too large.
fn one_sign(low: i32, high: i32) -> bool
    ensures { result ≡ ((le_z (pos 1) low && le_z high (pos 9999)) || (le_z (negsuc 9998) low && le_z high (negsuc 0)) || (le_z (pos 0) low && le_z high (pos 0))) }
{
    (1 <= low && high <= MOST_AMOUNT)
        || (LEAST_AMOUNT <= low && high <= -1)
        || (0 <= low && high <= 0)
}

// len words are whole items of `size` words, at most `most` words.
fn whole(len: usize, size: usize, most: usize) -> bool
    requires { 0 < size }
    ensures { result ≡ (eqb (len % size) 0 && leb len most) }
{
    len % size == 0 && len <= most
}

// ---- questions to one cage

fn limit_in_range(x: Height) -> bool
    ensures { result ≡ limit_in_range x.0 }
{
    (LEAST_LEVEL..=MOST_LEVEL).contains(&x.0)
}

fn limits_right(c: Reservoir) -> bool
    ensures { result ≡ limits_right (reservoir_of c) }
{
    limit_in_range(c.low) && limit_in_range(c.high) && limit_in_range(c.initial)
}

fn stock_right(c: Reservoir) -> bool
    ensures { result ≡ stock_right (reservoir_of c) }
{
    (c.low..=c.high).contains(&c.initial)
}

fn cover_right(c: Reservoir) -> bool
    ensures { result ≡ cover_right (reservoir_of c) }
{
    (0..=1).contains(&c.cover.0)
}

// ---- questions to one event; its words, as a lag's below, are read where they stand: an array cut out for each would have to be tied to the table's words in each contract

#[tactic(auto, unfolding(model::specs::Job::windows))]
fn times_right(h: Time, table: &[i32], y: usize) -> bool
    requires { 5 * y + 5 ≤ length table.now }
    ensures { result ≡ times_right h.0 (windows table.now) y }
{
    let earliest = table[5 * y];
    let latest = table[5 * y + 1];
    0 <= earliest && earliest <= latest && latest <= h.0
}

#[tactic(auto, unfolding(model::specs::Job::windows))]
fn heights_right(table: &[i32], y: usize) -> bool
    requires { 5 * y + 5 ≤ length table.now }
    ensures { result ≡ heights_right (windows table.now) y }
{
    let low = table[5 * y + 2];
    let high = table[5 * y + 3];
    one_sign(low, high) && low <= high
}

// The event's cage is one of so many.
fn cage_right(cages: usize, table: &[i32], y: usize) -> bool
    requires { (cages ≤ 8) × (5 * y + 5 ≤ length table.now) }
    ensures { result ≡ cage_right cages table.now y }
{
    Word(table[5 * y + 4]).is_event(cages)
}

// ---- questions to one lag

fn lag_events(n: usize, lags: &[i32], g: usize) -> bool
    requires { (n ≤ 64) × (3 * g + 3 ≤ length lags.now) }
    ensures { result ≡ lag_events n lags.now g }
{
    Word(lags[3 * g]).is_event(n) && Word(lags[3 * g + 1]).is_event(n)
}

fn lag_differs(lags: &[i32], g: usize) -> bool
    requires { 3 * g + 3 ≤ length lags.now }
    ensures { result ≡ lag_differs lags.now g }
{
    lags[3 * g] != lags[3 * g + 1]
}

fn lag_in_range(lags: &[i32], g: usize) -> bool
    requires { 3 * g + 3 ≤ length lags.now }
    ensures { result ≡ lag_in_range lags.now g }
{
    (LEAST_MINUTES..=MOST_MINUTES).contains(&lags[3 * g + 2])
}

// ---- the questions in order; the tables are lent one by one, as the C interface lends them

fn horizon_right(h: Time) -> bool
    ensures { result ≡ horizon_right h.0 }
{
    (0..=MOST_MINUTES).contains(&h.0)
}

// len words are whole cages, 1 to 8.
fn cages_whole(len: usize) -> bool
    ensures { result ≡ (eqb (len % 4) 0 && leb 4 len && leb len 32) }
{
    4 <= len && whole(len, 4, 32)
}

// To the horizon and the cage table.
fn cage_questions(h: Time, cages: &[i32]) -> Result<(), Refusal>
    ensures { check_of result ≡ cage_questions h.0 cages.now }
{
    ask(Question::Horizon, horizon_right(h))?;
    ask(Question::Cages, cages_whole(cages.len()))?;
    let n = cages.len() / 4;
    each(Question::Limits, n, |c| limits_right(cage_at(cages, c)))?;
    each(Question::Stock, n, |c| stock_right(cage_at(cages, c)))?;
    each(Question::Cover, n, |c| cover_right(cage_at(cages, c)))
}

// To the window table of a job of so many cages.
fn window_questions(h: Time, cages: usize, table: &[i32]) -> Result<(), Refusal>
    requires { cages ≤ 8 }
    ensures { check_of result ≡ window_questions h.0 cages table.now }
{
    ask(Question::Windows, whole(table.len(), 5, MOST_WINDOW_WORDS))?;
    let n = table.len() / 5;
    each(Question::Times, n, |y| times_right(h, table, y))?;
    each(Question::Amounts, n, |y| heights_right(table, y))?;
    each(Question::Cage, n, |y| cage_right(cages, table, y))
}

// To the lag table of a job of n events. That n is at most 64, as question 4 asked, stays in contracts: a type for it would only wrap the number in this crate.
fn lag_questions(n: usize, lags: &[i32]) -> Result<(), Refusal>
    requires { n ≤ 64 }
    ensures { check_of result ≡ lag_questions n lags.now }
{
    ask(Question::Lags, whole(lags.len(), 3, MOST_LAG_WORDS))?;
    let m = lags.len() / 3;
    each(Question::LagEvents, m, |g| lag_events(n, lags, g))?;
    each(Question::LagPair, m, |g| lag_differs(lags, g))?;
    each(Question::LagMinutes, m, |g| lag_in_range(lags, g))
}

// To the slip buffer's length.
pub fn room_question(room: usize) -> Result<(), Question>
    ensures { put result ≡ ask 11 (room_right room) }
{
    ask(Question::Room, (LEAST_ROOM..=MOST_ROOM).contains(&room))
}

// To the round limit.
fn limit_question(limit: i32) -> Result<(), Question>
    ensures { put result ≡ ask 28 (limit_right limit) }
{
    ask(Question::Rounds, (0..=MOST_ROUNDS).contains(&limit))
}

// The job's own questions up to its lags'.
fn first_questions(h: Time, cages: &[i32], table: &[i32], lags: &[i32]) -> Result<(), Refusal>
    ensures { check_of result ≡ first_questions (call h.0 cages.now table.now lags.now []) }
{
    cage_questions(h, cages)?;
    window_questions(h, cages.len() / 4, table)?;
    lag_questions(table.len() / 5, lags)
}

// The job's own questions: those, then its sets'.
#[tactic(auto, unfolding(model::specs::Questions::own_questions))]
pub fn own_questions(
    h: Time,
    cages: &[i32],
    table: &[i32],
    lags: &[i32],
    sets: &[i32],
) -> Result<(), Refusal>
    ensures { check_of result ≡ own_questions (call h.0 cages.now table.now lags.now sets.now) }
{
    first_questions(h, cages, table, lags)?;
    set_questions(table.len() / 5, sets)
}

// The reader's before it looks at the list: the job's own, then of the list's length.
#[tactic(auto, unfolding(model::specs::Questions::questions))]
pub fn questions(
    h: Time,
    cages: &[i32],
    table: &[i32],
    lags: &[i32],
    sets: &[i32],
    room: usize,
) -> Result<(), Refusal>
    ensures { check_of result ≡ questions (call h.0 cages.now table.now lags.now sets.now) room }
{
    own_questions(h, cages, table, lags, sets)?;
    Ok(room_question(room)?)
}

// The planner's: the round limit's comes after the lags' questions, before the sets'.
#[tactic(auto, unfolding(model::specs::Questions::plan_questions))]
pub fn plan_questions(
    h: Time,
    cages: &[i32],
    table: &[i32],
    lags: &[i32],
    sets: &[i32],
    limit: i32,
    room: usize,
) -> Result<(), Refusal>
    ensures { check_of result ≡ plan_questions (call h.0 cages.now table.now lags.now sets.now) limit room }
{
    first_questions(h, cages, table, lags)?;
    limit_question(limit)?;
    set_questions(table.len() / 5, sets)?;
    Ok(room_question(room)?)
}
