// 14: what a slip names.
ghost use Rattle.std.specs.Prelude.{◌≡◌, ◌<◌, ◌≤◌, eqb, nat_abs};
ghost use Rattle.model.specs.Job.{any, set_begin, member_count, member_word};
ghost use Rattle.model.specs.Rules.{subjects, target_fits};
ghost use Rattle.model.specs.Reader.{has_bound, kind_fits};
ghost use Rattle.rules.specs.Values.{rule_of};
ghost use Rattle.totals.specs.Totals.{Listed};
ghost use Rattle.judging.specs.Ready.{job_of, Nameable, Names14};

use crate::premises::facts_fit;
use crate::{Call, Named};
use rules::lags::Lag;
use rules::{Family, Rule};
use sets::{Set, sets as begun};
use slips::Slip;
use tables::Word;
use totals::is_member;

// Does rule r give bounds? A level rule concludes conflict alone.
fn gives_bound(r: Rule) -> bool
    ensures { result ≡ has_bound (rule_of r) }
{
    match r {
        Rule::Reservoir(v) => v.family != Family::Level,
        Rule::LagUpper | Rule::LagLower | Rule::Total { mirror: _ } => true,
    }
}

// Is the kind the rule's own, or 0 with value 0?
fn kind_right(r: Rule, kind: Word, value: Word) -> bool
    ensures { result ≡ kind_fits (rule_of r) kind.0 value.0 }
{
    if kind.word_is(0) {
        return value.word_is(0);
    }
    gives_bound(r) && kind.word_is(r.own_end().kind())
}

// What a call owes these stays a clause: it is no more than was asked of the call's parts, and an invariant of `Call` would ask all of it of whoever makes one.
// How many subjects rule r has: lags in rules 1 and 2, sets in 17 and 18, else events.
fn subjects(c: &Call, r: Rule) -> usize
    requires { Nameable c.now }
    ensures { (result ≡ subjects (rule_of r) (job_of c.now)) × (result ≤ 256) }
{
    match r {
        Rule::LagUpper | Rule::LagLower => c.lags.len() / 3,
        Rule::Reservoir(_) => c.job.events,
        Rule::Total { mirror: _ } => begun(c.sets),
    }
}

// Is y a member of set g?
fn in_set(sets: &[i32], g: usize, y: usize) -> bool
    requires { (g ≤ 16) × Listed sets.now (set_begin sets.now g) }
    ensures { result ≡ any (member_count sets.now g) (λ i. eqb (nat_abs (member_word sets.now g i)) y) }
{
    is_member(Set::of_table(sets, g), y)
}

// Does the target fit the rule: a, b, or e; any event in 5, 8, 11, 14; a member in 17 and 18?
fn target_right(c: &Call, r: Rule, e: usize, y: usize) -> bool
    requires { Nameable c.now × (e < subjects (rule_of r) (job_of c.now)) }
    ensures { result ≡ target_fits (rule_of r) (job_of c.now) e y }
{
    match r {
        Rule::LagUpper => y == Lag::of_table(c.lags, e).a,
        Rule::LagLower => y == Lag::of_table(c.lags, e).b,
        Rule::Reservoir(v) => v.family == Family::Height || y == e,
        Rule::Total { mirror: _ } => in_set(c.sets, e, y),
    }
}

// 14. The slip with its subject, target and bound, if subject, target and fact events exist, fact kinds are 1..4, the target fits the rule, and the kind is the rule's own, or 0 with value 0.
pub fn named<'a>(c: &Call, s: &Slip<'a>) -> Option<Named<'a>>
    requires { Nameable c.now }
    ensures { Names14 (job_of c.now) s.now result }
{
    let r = s.rule;
    let n = c.job.events;
    if !s.subject.is_event(subjects(c, r)) {
        return None;
    }
    if !s.target.is_event(n) {
        return None;
    }
    if !facts_fit(s.facts, n) {
        return None;
    }
    let subject = s.subject.index();
    let target = s.target.index();
    if !target_right(c, r, subject, target) {
        return None;
    }
    if !kind_right(r, s.kind, s.value) {
        return None;
    }
    Some(Named {
        slip: *s,
        subject,
        target,
        bound: (!s.kind.word_is(0)).then_some(s.value),
    })
}
