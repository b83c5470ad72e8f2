// What rules 17 and 18 give on a board: a set's members added up once for a side, then each member by the set's slack.
#![tactic(auto)]

ghost use Rattle.std.specs.Prelude.{◌≡◌, ℕ, ◌+◌, ◌<◌, ◌≤◌, T, eqb, pos, length, ◌≤ℤ◌};
ghost use Rattle.integers.specs.Range.{Within};
ghost use Rattle.model.specs.Job.{h_min, h_max, any, events, in_set, Job as Call};
ghost use Rattle.model.specs.Rules.{total, finding, own_end};
ghost use Rattle.model.specs.Slips.{end};
ghost use Rattle.tables.specs.Board.{board};
ghost use Rattle.rules.specs.Values.{finding_of, effect_of};
ghost use Rattle.sets.specs.Sets.{word_at, member_at, count_at};
ghost use Rattle.totals.specs.Totals.{event_at, limit_at, total_at, Listed, Adds, SetOf, bound_by, does_by, Slack};

use levels::levels::added;
use levels::places::{side_h_max, side_height, side_limit};
use rules::effects::bound_effect;
use rules::{Effect, Finding, Rule};
use sets::Set;
use tables::{Board, Height};

// ---- a set of the table; board and set stay two parameters: the board changes between two calls, so that a struct which lends both would be made anew at each

// Member i of a set, an event.
pub fn member(set: Set, i: usize) -> usize
    requires { (set.at + (3 + i) < length set.table.now) × (pos 0 ≤ℤ member_at set.table.now set.at i) }
    ensures { result ≡ event_at set.entry.table.now set.entry.at i }
{
    set.table[set.at + (3 + i)] as usize
}

// Is y among its members?
pub fn is_member(set: Set, y: usize) -> bool
    requires { Listed set.table.now set.at }
    ensures { result
        ≡ any (count_at set.entry.table.now set.entry.at) (λ i. eqb (event_at set.entry.table.now set.entry.at i) y) }
{
    (0..set.count()).any(|k| member(set, k) == y)
}

// The limit that the sum of its members must reach on a side: of the least total and the most.
fn limit(set: Set, mirror: bool) -> Height
    requires { (set.at + 3 ≤ length set.table.now) × Within (word_at set.table.now set.at 1) 639936 }
    ensures { result.0 ≡ limit_at mirror set.entry.table.now set.entry.at }
{
    let least = set.table[set.at];
    let most = set.table[set.at + 1];
    side_limit(mirror, Height(least), Height(most))
}

// Its members' h_max on a side, added up.
fn total(b: &Board, set: Set, mirror: bool) -> Height
    requires { Adds set.table.now set.at (board b.now.words) }
    ensures { result.0 ≡ total_at mirror set.entry.table.now set.entry.at (board b.now.words) × Within result.0 639936 }
{
    added(set.count(), Height::ZERO, |i| {
        side_h_max(b, mirror, member(set, i))
    })
}

// What is left over the limit.
pub fn slack(b: &Board, set: Set, mirror: bool) -> Height
    requires { Adds set.table.now set.at (board b.now.words) }
    ensures { ((j : Call) (g : ℕ) →
        SetOf set.entry.table.now set.entry.at j g →
        Slack j g mirror (board b.now.words) result.0)
        × Within result.0 1279872 }
{
    total(b, set, mirror) - limit(set, mirror)
}

// ---- a member of a set with this slack

// The bound of rule 17, in the mirror 18, on y's amount.
fn total_bound(b: &Board, mirror: bool, y: usize, slack: Height) -> Height
    requires { (y < 64) × Within (board b.now.words y h_min) 9999 × Within (board b.now.words y h_max) 9999 × Within slack.0 1279872 }
    ensures { result.0 ≡ bound_by mirror (board b.now.words) y slack.0 }
{
    side_height(mirror, side_h_max(b, mirror, y) - slack)
}

// What rule 17, in the mirror 18, does to y's window.
pub fn total_effect(b: &Board, mirror: bool, y: usize, slack: Height) -> Effect
    requires { (y < 64) × Within (board b.now.words y h_min) 9999 × Within (board b.now.words y h_max) 9999 × Within slack.0 1279872 }
    ensures { effect_of result ≡ does_by mirror (board b.now.words) y slack.0 }
{
    let h = total_bound(b, mirror, y, slack);
    bound_effect(b, Rule::Total { mirror }.own_end(), y, h.into())
}

// ---- at once

// What rule 17, in the mirror 18, gives for the member y of a set.
pub fn total_finding(b: &Board, set: Set, mirror: bool, y: usize) -> Finding
    requires { Adds set.table.now set.at (board b.now.words)
        × (y < 64)
        × Within (board b.now.words y h_min) 9999
        × Within (board b.now.words y h_max) 9999 }
    ensures { (j : Call) (g : ℕ) →
        SetOf set.entry.table.now set.entry.at j g →
        y < events j →
        T (in_set j g y) →
        finding_of result ≡ finding (total mirror) j (board b.now.words) g y }
{
    let s = slack(b, set, mirror);
    Finding::Bound(total_bound(b, mirror, y, s).into())
}
