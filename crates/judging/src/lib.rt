// Questions 14 to 18, put to one slip.
#![tactic(auto)]

pub mod premises; // premises.rt: the facts of a slip: 14 and 15, and windows narrowed by them
pub mod opened; // opened.rt: the widest windows
pub mod naming; // naming.rt: 14: what a slip names
pub mod giving; // giving.rt: 16 to 18: what its rule gives on the fact windows, and what it does

ghost use Rattle.std.specs.Prelude.{◌≡◌, cond, pos, nat_abs, Some, None};
ghost use Rattle.integers.specs.Range.{eq_z};

use slips::Slip;
use tables::{Board, Job, Word};

// A call whose list is judged: its job with the first of its cages, its tables, and the board of its widest windows.
#[derive(Clone, Copy)]
pub struct Call<'a> {
    pub job: Job,
    pub cages: &'a [i32],
    pub table: &'a [i32],
    pub lags: &'a [i32],
    pub sets: &'a [i32],
    pub wide: &'a Board,
}

// A slip with its subject and its target as numbers, and the bound that it concludes; none: a conflict.
#[derive(Clone, Copy)]
pub struct Named<'a> {
    pub slip: Slip<'a>,
    pub subject: usize,
    pub target: usize,
    pub bound: Option<Word>,
    ghost subject_is: { subject ≡ nat_abs slip.subject.0 },
    ghost target_is: { target ≡ nat_abs slip.target.0 },
    ghost bound_is: { bound ≡ cond (eq_z slip.kind.0 (pos 0)) None (Some slip.value) },
}
