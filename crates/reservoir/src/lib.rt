// The library: planner and reader, and the one call in which both assure each other.
//
// The planner is `propagator::plans::plan`, the reader `checker::check`. At each promise two wrong programs are named that it rules out;
// each stands as an edit in its crate's must-fail and docs/EDITS.md tells which fact breaks.
#![tactic(auto)]

ghost use Rattle.std.specs.Prelude.{◌≡◌, length};
ghost use Rattle.tables.specs.Job.{call};
ghost use Rattle.reservoir.specs.Assured.{Copied, Assured};

use checker::{Judgement, check};
use propagator::Answer;
use propagator::plans::plan;
use questions::Refusal;

// The planner's answer, and the reader's judgement on the list that it wrote.
#[derive(Clone, Copy, PartialEq, Eq)]
pub struct Checked {
    pub answer: Answer,
    pub judgement: Judgement,
}

// The table's words copied, if it has at most 320: the library uses no heap, so the copy is an array.
fn keep(table: &[i32], copy: &mut [i32; 320])
    requires { length copy.old ≡ 320 }
    ensures { Copied table.now copy.new }
{
    let n = table.len();
    if n <= 320 {
        copy[..n].copy_from_slice(table);
    }
}

// Plans, then reads what was written with the windows as first sent in. A call that the planner refuses is refused.
// The promise is demands 1 to 3 in one piece. It rules out a call that says open whatever the reader answered (reader_not_heard)
// and one that reads the list from other windows than those sent in (windows_of_64_events_lost).
// The tables stand one by one, as the C interface lends them.
pub fn plan_and_read(
    h: i32,
    cages: &[i32],
    table: &mut [i32],
    lags: &[i32],
    sets: &[i32],
    limit: i32,
    buffer: &mut [i32],
) -> Result<Checked, Refusal>
    ensures { Assured (call h cages.now table.old lags.now sets.now) limit buffer.old table.new buffer.new result }
{
    let n = table.len();
    let mut copy = [0i32; 320];
    keep(table, &mut copy);
    let answer = plan(h, cages, table, lags, sets, limit, buffer)?;
    let list = &buffer[..answer.length];
    let judgement = check(h, cages, &mut copy[..n], lags, sets, list)?;
    Ok(Checked { answer, judgement })
}
