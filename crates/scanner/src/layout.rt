// The job that a whole text says: how its numbers, as they stand in the table, are laid out.
ghost use Rattle.std.specs.Prelude.{◌≡◌, ◌+◌, ◌*◌, ◌≤◌, take, IfSome};
ghost use Rattle.model.specs.Text.{job_of};
ghost use Rattle.scanner.specs.Scanning.{state, state_of, finished};
ghost use Rattle.scanner.specs.Layout.{count_at, walked, limit_at, layout_of, Handed};

use crate::scan::{Scan, Scanner, end_token};

// H, a count and 4 words a cage of 8, two counts, 5 words an event of 64, 3 words a lag of 256, a count, 3 words a set of 16 and its members of 64, a round limit: no job has more numbers.
pub const MOST_NUMBERS: usize = 2198;

// The round limit of a text that says none.
pub const DEFAULT_LIMIT: i32 = 40;

// How many cages, events and lags there are, and how many words of sets; the round limit.
#[derive(Clone, Copy, Debug, PartialEq, Eq)]
pub struct Sizes {
    pub cages: usize,
    pub events: usize,
    pub lags: usize,
    pub words: usize,
    pub limit: i32,
}

// The number at place i, if there is one and it is in least..most.
#[tactic(auto, unfolding(crate::specs::Layout::count_of))]
fn count_at(numbers: &[i32], i: usize, least: usize, most: usize) -> Option<usize>
    ensures value { result ≡ count_at numbers.now i least most }
    ensures few { IfSome result (λ n. n ≤ most) }
{
    let count = usize::try_from(*numbers.get(i)?).ok()?;
    (least..=most).contains(&count).then_some(count)
}

// The place behind the sets, so many of them, the first at place i.
#[tactic(auto, unfolding(crate::specs::Layout::walked))]
fn walk(numbers: &[i32], i: usize, sets: usize) -> Option<usize>
    requires { (i ≤ 2000) × (sets ≤ 16) }
    ensures value { result ≡ walked numbers.now i sets }
    ensures few { IfSome result (λ e. (i ≤ e) × (e ≤ i + 67 * sets)) }
{
    let mut at = i;
    for _ in 0..sets {
        let members = count_at(numbers, at + 2, 0, 64)?;
        at += 3 + members;
    }
    Some(at)
}

// The round limit behind the sets, which end before place e: no number is there, or this one alone.
#[tactic(auto, unfolding(crate::specs::Layout::limit_at))]
fn limit_at(numbers: &[i32], e: usize) -> Option<i32>
    ensures { result ≡ limit_at numbers.now e }
{
    match numbers.len().checked_sub(e)? {
        0 => Some(DEFAULT_LIMIT),
        1 => Some(numbers[e]),
        _ => None,
    }
}

// How the numbers are laid out: H, the number of cages and their words, n m, then n events, m lags, the number of sets and their words, and a round limit or none; or otherwise, which is 20.
#[tactic(auto, unfolding(crate::specs::Layout::layout_of))]
fn laid_out(numbers: &[i32]) -> Option<Sizes>
    ensures { result ≡ layout_of numbers.now }
{
    let cages = count_at(numbers, 1, 1, 8)?;
    let events = count_at(numbers, 2 + 4 * cages, 0, 64)?;
    let lags = count_at(numbers, 3 + 4 * cages, 0, 256)?;
    let behind = 4 + 4 * cages + 5 * events + 3 * lags;
    let sets = count_at(numbers, behind, 0, 16)?;
    let begin = behind + 1;
    let end = walk(numbers, begin, sets)?;
    let limit = limit_at(numbers, end)?;
    Some(Sizes {
        cages,
        events,
        lags,
        words: end - begin,
        limit,
    })
}

// The last token ended, and the sizes of the job that the text says. A function of its own: behind a shared loan of a struct's table the proof knows no word of it.
fn job_sizes(s: Scan, table: &mut [i32]) -> Option<Sizes>
    ensures { Handed result table.new (finished (state s table.old)) }
{
    let Scan::Between(many) = end_token(s, table) else {
        return None;
    };
    laid_out(&table[..many.min(table.len())])
}

impl<'a> Scanner<'a> {
    // The end of the text: the sizes of the job that it says, whose numbers then stand at the start of the table.
    // It rules out a program that takes nine cages (nine_cages) or seventeen sets (seventeen_sets), one that refuses 64 events (sixty_four_events_refused) and one that takes a number too many (number_too_many).
    pub fn finish(&mut self) -> Option<Sizes>
        ensures same_table { self.new.table.ghost_name ≡ self.old.table.ghost_name }
        ensures same_scan { self.new.scan ≡ self.old.scan }
        ensures job { Handed result self.new.table.now (finished (state_of self.old)) }
    {
        job_sizes(self.scan, self.table)
    }
}
