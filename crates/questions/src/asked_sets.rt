// The questions to the set table. Any words are walked. That n is at most 64 stays in contracts, as in asked.rt.
ghost use Rattle.std.specs.Prelude.{◌≡◌, Bool, ℕ, ◌<◌, ◌≤◌, T, length};
ghost use Rattle.model.specs.Job.{every};
ghost use Rattle.model.specs.Questions.{each, set_whole, members_right, totals_right, total_in_range, set_questions};
ghost use Rattle.questions.specs.Numbers.{number_of};
ghost use Rattle.questions.specs.Asked.{check_of, Nth, is_new, member_right};

use crate::asked::refuse;
use crate::{Question, Refusal};
use sets::{LEAST_TOTAL, MOST_TOTAL, Set, sets};
use tables::Word;

// A question to the first m sets of a table in order, `right` telling the answer of each, by its number and the set. One set after another: to look for each from the table's start would walk it anew for each.
#[tactic(auto, unfolding(model::specs::Job::set_begin))]
fn each_set<'a, F: Fn(usize, Set<'a>) -> bool>(
    question: Question,
    table: &'a [i32],
    m: usize,
    right: F,
) -> Result<(), Refusal>
    requires few { m ≤ 17 }
    requires callable { (g : ℕ) → (s : Set) → g < m → Nth table.now g s → F.pre right g s }
    ensures { (ok : ℕ → Bool) →
        ((g : ℕ) → (s : Set) → g < m → Nth table.now g s → (r : Bool) → F.post right g s r → r ≡ ok g) →
        check_of result ≡ each (number_of question) ok 0 m }
{
    let mut set = Set { table, at: 0 };
    for g in 0..m {
        if !right(g, set) {
            return refuse(question, g);
        }
        set = set.next();
    }
    Ok(())
}

// Is set g one of the first 16, and whole?
fn set_whole(g: usize, set: Set) -> bool
    requires { Nth set.table.now g set }
    ensures { result ≡ set_whole set.entry.table.now g }
{
    g < 16 && set.next().at <= set.table.len()
}

// Is member i of a set another than those before it?
fn is_new(members: &[i32], i: usize) -> bool
    requires { i < length members.now }
    ensures { result ≡ is_new members.now i }
{
    !members[..i].contains(&members[i])
}

// Are all of a set's members events, of n, none twice?
fn all_right(n: usize, members: &[i32]) -> bool
    requires { n ≤ 64 }
    ensures { result ≡ every (length members.now) (member_right n members.now) }
{
    (0..members.len()).all(|i| Word(members[i]).is_event(n) && is_new(members, i))
}

// Has set g, which is whole, members, all of them so?
fn members_right(n: usize, g: usize, set: Set) -> bool
    requires { (n ≤ 64) × Nth set.table.now g set × T (set_whole set.table.now g) }
    ensures { result ≡ members_right n set.entry.table.now g }
{
    let members = set.members();
    !members.is_empty() && all_right(n, members)
}

fn total_in_range(x: i32) -> bool
    ensures { result ≡ total_in_range x }
{
    (LEAST_TOTAL..=MOST_TOTAL).contains(&x)
}

// Are the totals of set g in range, the least not over the most?
fn totals_right(g: usize, set: Set) -> bool
    requires { Nth set.table.now g set }
    ensures { result ≡ totals_right set.entry.table.now g }
{
    let least = set.word(0);
    let most = set.word(1);
    total_in_range(least) && total_in_range(most) && least <= most
}

// To the set table of a job of n events; all sets are whole before their members are read.
pub fn set_questions(n: usize, ws: &[i32]) -> Result<(), Refusal>
    requires { n ≤ 64 }
    ensures { check_of result ≡ set_questions n ws.now }
{
    let m = sets(ws);
    each_set(Question::Set, ws, m, |g, set| set_whole(g, set))?;
    each_set(Question::Members, ws, m, |g, set| members_right(n, g, set))?;
    each_set(Question::Totals, ws, m, |g, set| totals_right(g, set))
}
