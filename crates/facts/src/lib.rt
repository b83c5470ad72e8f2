// Which facts a slip quotes and what it says of them.
#![tactic(auto)]

pub mod premises; // premises.rt: the facts of one slip, decided once

use levels::View;
use tables::{Time, Word};

// The facts of a lag's slip: t ≥ of its event a, if it is quoted, and t ≤ of b.
#[derive(Clone, Copy)]
pub struct LagCiting {
    pub a: usize,
    pub b: usize,
    pub from: Option<Word>,
    pub to: Option<Word>,
}

// What decides the facts of a reservoir rule's slip, in its view: e's time window is from..to; deliveries left out come no earlier than `after`, sure pulls no later than `until`.
#[derive(Clone, Copy)]
pub struct LevelCiting {
    pub view: View,
    pub from: Time,
    pub to: Time,
    pub after: Time,
    pub until: Time,
    // are t ≥ and t ≤ of e quoted?
    pub starts: bool,
    pub ends: bool,
    // the target whose h is left out, if it is
    pub spared: Option<usize>,
}

// What decides the facts of a set's slip, of rule 17 or of its mirror 18: its target, and is it a conflict's? They are read off a board on which only the members have amounts.
#[derive(Clone, Copy)]
pub struct TotalCiting {
    pub mirror: bool,
    pub target: usize,
    pub failed: bool,
}

// What decides the facts of one slip, made once.
#[derive(Clone, Copy)]
pub enum Citing {
    Lag(LagCiting),
    Level(LevelCiting),
    Total(TotalCiting),
}

// Of events other than e: is one a pull that e's level surely counts, is one a delivery that it leaves out?
#[derive(Clone, Copy)]
pub struct Others {
    pub early: bool,
    pub late: bool,
}

// Which facts of one event a slip quotes: t ≥, t ≤, and h ≤ (in a mirror's slip h ≥).
#[derive(Clone, Copy)]
pub struct Quoted {
    pub lower: bool,
    pub upper: bool,
    pub height: bool,
}
