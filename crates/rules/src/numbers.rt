// The rules and their numbers, the end of a rule's bounds, and a reservoir rule's view.
ghost use Rattle.std.specs.Prelude.{◌≡◌};
ghost use Rattle.model.specs.Standing.{SaneCage};
ghost use Rattle.model.specs.Rules.{own_end};
ghost use Rattle.tables.specs.Job.{reservoir_of};
ghost use Rattle.tables.specs.Ends.{end_of};
ghost use Rattle.levels.specs.Values.{Views};
ghost use Rattle.rules.specs.Values.{variant_of, rule_of};
ghost use Rattle.rules.specs.Numbers.{number_of, Numbered};

use crate::{Family, Rule, Variant};
use levels::View;
use tables::{End, Job, Word};

// A word that is the number of no rule.
#[derive(Clone, Copy, PartialEq, Eq)]
pub struct NoRule;

impl TryFrom<Word> for Rule {
    type Error = NoRule;

    ghost try_from_gives = { λ w r. Numbered w.0 r };

    fn try_from(number: Word) -> Result<Rule, NoRule> {
        match number.0 {
            1 => Ok(Rule::LagUpper),
            2 => Ok(Rule::LagLower),
            3 => Ok(Rule::reservoir(false, true, Family::Level)),
            4 => Ok(Rule::reservoir(false, true, Family::Time)),
            5 => Ok(Rule::reservoir(false, true, Family::Height)),
            6 => Ok(Rule::reservoir(true, true, Family::Level)),
            7 => Ok(Rule::reservoir(true, true, Family::Time)),
            8 => Ok(Rule::reservoir(true, true, Family::Height)),
            9 => Ok(Rule::reservoir(false, false, Family::Level)),
            10 => Ok(Rule::reservoir(false, false, Family::Time)),
            11 => Ok(Rule::reservoir(false, false, Family::Height)),
            12 => Ok(Rule::reservoir(true, false, Family::Level)),
            13 => Ok(Rule::reservoir(true, false, Family::Time)),
            14 => Ok(Rule::reservoir(true, false, Family::Height)),
            17 => Ok(Rule::Total { mirror: false }),
            18 => Ok(Rule::Total { mirror: true }),
            _ => Err(NoRule),
        }
    }
}

impl Variant {
    // The number of such a rule: three of a side, before or by, after each other.
    pub fn number(self) -> usize
        ensures { result ≡ number_of (variant_of self) }
    {
        let first = if self.strict { 3 } else { 9 };
        let side = if self.mirror { first + 3 } else { first };
        side + self.family as usize
    }

    // The view at e of such a rule.
    pub fn view(self, k: Job, e: usize) -> View
        requires { SaneCage (reservoir_of k.reservoir) }
        ensures { Views k.events (reservoir_of k.reservoir) self.mirror self.strict e result }
    {
        View::at(k.reservoir, k.events, self.mirror, self.strict, e)
    }
}

impl Rule {
    // A rule of 3..14.
    pub fn reservoir(mirror: bool, strict: bool, family: Family) -> Rule
        ensures { rule_of result ≡ variant_of (record { mirror = mirror; strict = strict; family = family }) }
    {
        Rule::Reservoir(Variant {
            mirror,
            strict,
            family,
        })
    }

    // Its number in slips.
    pub fn number(self) -> usize
        ensures { result ≡ number_of (rule_of self) }
    {
        match self {
            Rule::LagUpper => 1,
            Rule::LagLower => 2,
            Rule::Reservoir(v) => v.number(),
            Rule::Total { mirror: false } => 17,
            Rule::Total { mirror: true } => 18,
        }
    }

    // The end that its bounds are about.
    pub fn own_end(self) -> End
        ensures { end_of result ≡ own_end (rule_of self) }
    {
        match self {
            Rule::LagUpper => End::TMax,
            Rule::LagLower => End::TMin,
            Rule::Reservoir(v) if v.family != Family::Height => End::TMin,
            Rule::Reservoir(v) if v.mirror => End::HMax,
            Rule::Reservoir(_) => End::HMin,
            Rule::Total { mirror: true } => End::HMax,
            Rule::Total { mirror: false } => End::HMin,
        }
    }
}
