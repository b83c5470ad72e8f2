// The set table: the sets one after another, each least total, most total, member count, members. Where each set begins; any words are walked.
#![tactic(auto)]

ghost use Rattle.std.specs.Prelude.{◌≡◌, ◌+◌, ◌<◌, ◌≤◌, length, take, drop};
ghost use Rattle.model.specs.Job.{to_count, set_begin, begun};
ghost use Rattle.sets.specs.Sets.{word_at, count_at};

// A job has at most 16 sets: a seventeenth that begins is one too many.
pub const MOST_BEGUN: usize = 17;

// A set's totals are in −639,936..639,936.
pub const MOST_TOTAL: i32 = 639936;

pub const LEAST_TOTAL: i32 = -639936;

// As many as a word says; a word under 0 says none.
fn to_count(w: i32) -> usize
    ensures { (result ≡ to_count w) × (result < 2147483648) }
{
    w.max(0) as usize
}

// A set of a table, by the place of its first word.
#[derive(Clone, Copy)]
pub struct Set<'a> {
    pub table: &'a [i32],
    pub at: usize,
}

impl<'a> Set<'a> {
    // Word i; 0 past the table's end.
    pub fn word(self, i: usize) -> i32
        ensures { result ≡ word_at self.entry.table.now self.entry.at i }
    {
        let at = self.at.saturating_add(i);
        self.table.get(at).copied().unwrap_or(0)
    }

    // How many members it has; a count under 0 says none.
    pub fn count(self) -> usize
        ensures { (result ≡ count_at self.entry.table.now self.entry.at) × (result < 2147483648) }
    {
        to_count(self.word(2))
    }

    // Its members, where the table has them all.
    pub fn members(self) -> &'a [i32]
        requires { self.at + 3 + count_at self.table.now self.at ≤ length self.table.now }
        ensures { result.now ≡ take (count_at self.entry.table.now self.entry.at) (drop (self.entry.at + 3) self.entry.table.now) }
    {
        let first = self.at + 3;
        &self.table[first..first + self.count()]
    }

    // The set after it.
    pub fn next(self) -> Set<'a>
        requires { self.at < 1000000000000 }
        ensures { (result.table.now ≡ self.entry.table.now)
            × (result.at ≡ self.entry.at + 3 + count_at self.entry.table.now self.entry.at)
            × (result.at < self.entry.at + 2147483651) }
    {
        // Straight to the word: no sum passes usize here, and a walk of a table waits for each of these steps.
        let count = self.table.get(self.at + 2).copied().unwrap_or(0);
        Set {
            at: self.at + 3 + to_count(count),
            ..self
        }
    }

    // Set g of a table.
    #[tactic(auto, unfolding(model::specs::Job::set_begin))]
    pub fn of_table(table: &'a [i32], g: usize) -> Set<'a>
        requires { g ≤ 17 }
        ensures { (result.table.now ≡ table.now)
            × (result.at ≡ set_begin table.now g)
            × (result.at < 100000000000) }
    {
        let mut set = Set { table, at: 0 };
        for _k in 0..g {
            set = set.next();
        }
        set
    }
}

// How many sets begin, of the first 17.
#[tactic(auto, unfolding(model::specs::Job::set_begin, model::specs::Job::begun))]
pub fn sets(ws: &[i32]) -> usize
    ensures { (result ≡ begun ws.now 17) × (result ≤ 17) }
{
    let mut set = Set { table: ws, at: 0 };
    for k in 0..MOST_BEGUN {
        if set.at >= ws.len() {
            return k;
        }
        set = set.next();
    }
    MOST_BEGUN
}
