// 16 to 18: what its rule gives on the fact windows, and what it does.
ghost use Rattle.std.specs.Prelude.{◌≡◌, cond, List, ◌<◌, ◌≤◌, pos, IfOk};
ghost use Rattle.integers.specs.Range.{eq_z};
ghost use Rattle.model.specs.Job as model;
ghost use Rattle.model.specs.Rules.{own_end, effect, failed};
ghost use Rattle.model.specs.Slips.{Premise};
ghost use Rattle.model.specs.Reader.{narrowed, as_strict, gives, fits_there, slip_questions};
ghost use Rattle.tables.specs.Board.{board};
ghost use Rattle.tables.specs.Job.{Serves};
ghost use Rattle.rules.specs.Values.{rule_of, finding_of, Tries};
ghost use Rattle.questions.specs.Asked.{put};
ghost use Rattle.slips.specs.Slip.{headed, explanation_of};
ghost use Rattle.judging.specs.Ready.{job_of, ReadyFor, Sought, AtHome, Totalled, Belongs};

use crate::naming::named;
use crate::premises::{facts_true, narrow_by};
use crate::{Call, Named};
use cages::Home;
use questions::Question;
use questions::asked::ask;
use rules::effects::{bound_effect, finding_effect};
use rules::{Attempt, Finding, Rule};
use sets::Set;
use slips::Slip;
use tables::{Board, Job, Word, cage_of};
use totals::total_finding;

// Is the finding of rule r the bound v or a stricter one?
fn as_strict(r: Rule, v: Word, f: Finding) -> bool
    ensures { result ≡ as_strict (own_end (rule_of r)) v.0 (finding_of f) }
{
    match f {
        Finding::Nothing | Finding::Clash => false,
        Finding::Bound(w) => r.own_end().meets(v, w),
    }
}

// Does the finding give the slip's conclusion on its target, or a stricter one, on the windows of the board?
fn concludes(b: &Board, s: &Named, f: Finding) -> bool
    requires { s.now.target < 64 }
    ensures { result
        ≡ cond (eq_z s.now.slip.kind.0 (pos 0))
        (failed (effect (own_end (rule_of s.now.slip.rule)) (board b.now.words) s.now.target (finding_of f)))
        (as_strict (own_end (rule_of s.now.slip.rule)) s.now.slip.value.0 (finding_of f)) }
{
    let r = s.slip.rule;
    match s.bound {
        Some(v) => as_strict(r, v, f),
        None => finding_effect(b, r, s.target, f).has_failed(),
    }
}

// 16. Does the slip's rule of 1..14 give its conclusion or a stricter one on the windows of the board?
fn rule_gives(b: &Board, lags: &[i32], k: Job, s: &Named) -> bool
    requires { Tries k lags.now (board b.now.words) (rule_of s.now.slip.rule) s.now.subject s.now.target }
    ensures { (j : model.Job) →
        Serves k lags.now (board b.now.words) j →
        (fs : List Premise) →
        result ≡ gives j (board b.now.words) (headed s.now.slip fs) }
{
    let attempt = Attempt {
        board: b,
        lags,
        job: k,
        rule: s.slip.rule,
        subject: s.subject,
        target: s.target,
    };
    concludes(b, s, attempt.finding())
}

// 16. The same for rules 17 and 18, of a set and its member. They read no cage.
fn set_gives(b: &Board, sets: &[i32], mirror: bool, s: &Named) -> bool
    requires { Totalled sets.now (board b.now.words) mirror s.now }
    ensures { (j : model.Job) →
        Belongs sets.now j s.now.subject s.now.target →
        (fs : List Premise) →
        result ≡ gives j (board b.now.words) (headed s.now.slip fs) }
{
    let set = Set::of_table(sets, s.subject);
    concludes(b, s, total_finding(b, set, mirror, s.target))
}

// 16. The same for a rule at an event, in its cage: the events of other cages are seen as neutral. Where the job has one cage, nothing is masked.
fn home_gives(b: &Board, c: &Call, s: &Named) -> bool
    requires { AtHome c.now (board b.now.words) s.now }
    ensures { (fs : List Premise) → result ≡ gives (job_of c.now) (board b.now.words) (headed s.now.slip fs) }
{
    let cage = cage_of(c.table, s.subject);
    let own = Job::of_cage(c.job.horizon, c.cages, cage, c.job.events);
    if c.cages.len() == 4 {
        return rule_gives(b, c.lags, own, s);
    }
    let home = Home {
        table: c.table,
        events: c.job.events,
        subject: s.subject,
    };
    let mut seen = Board::blank();
    home.mask(b, &mut seen);
    rule_gives(&seen, c.lags, own, s)
}

// 16. The same on the wide board narrowed by the slip's facts.
fn facts_give(c: &Call, s: &Named) -> bool
    requires { Sought c.now (narrowed (board c.now.wide.now.words) (explanation_of s.now.slip).premises) s.now }
    ensures { result
        ≡ gives (job_of c.now) (narrowed (board c.now.wide.now.words) (explanation_of s.now.slip).premises) (explanation_of s.now.slip) }
{
    let mut facts = *c.wide;
    narrow_by(&mut facts, s.slip.facts);
    match s.slip.rule {
        Rule::LagUpper | Rule::LagLower => rule_gives(&facts, c.lags, c.job, s),
        Rule::Reservoir(_) => home_gives(&facts, c, s),
        Rule::Total { mirror } => set_gives(&facts, c.sets, mirror, s),
    }
}

// 17, of kinds 1 to 4: a bound narrows the standing window without emptying it. 18, of kind 0: a conflict is the last slip counted.
fn does_right(b: &Board, s: &Named, left: usize) -> Result<(), Question>
    requires { s.now.target < 64 }
    ensures { (fs : List Premise) → put result ≡ fits_there (board b.now.words) (headed s.now.slip fs) left }
{
    let Some(v) = s.bound else {
        return ask(Question::Conflict, left == 0);
    };
    let x = bound_effect(b, s.slip.rule.own_end(), s.target, v);
    ask(Question::Narrows, x.has_narrowed())
}

// Questions 14 to 18 of one slip, with as many left to read: the first "no", or the slip as 14 names it.
pub fn slip_questions<'a>(
    b: &Board,
    c: &Call,
    s: &Slip<'a>,
    left: usize,
) -> Result<Named<'a>, Question>
    requires { ReadyFor c.now b.now.words }
    ensures asked { put result
        ≡ slip_questions (job_of c.now) (board c.now.wide.now.words) (board b.now.words) (explanation_of s.now) left }
    ensures named { IfOk result (λ m. m.slip ≡ s.now) }
{
    let s = named(c, s).ok_or(Question::Names)?;
    ask(Question::Facts, facts_true(b, s.slip.facts))?;
    ask(Question::Rule, facts_give(c, &s))?;
    does_right(b, &s, left)?;
    Ok(s)
}
