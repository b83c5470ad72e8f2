// What a rule sees at an event: where the others stand to it, and the levels before and by it.
#![tactic(auto)]

pub mod places; // places.rt: before and by, delivery and pull, the mirror: the leaves
pub mod stances; // stances.rt: how a rule counts, and where it places an event
pub mod views; // views.rt: a view made, and what is seen in it
pub mod levels; // levels.rt: what an event adds, most before and by, the sure part

ghost use Rattle.levels.specs.Values.{OnBoard};

use tables::{Board, Height};

// Where an event stands to e: surely before (by); possibly, which counts where not surely.
#[derive(Clone, Copy)]
pub struct Place {
    pub sure: bool,
    pub possible: bool,
}

// How a rule counts: on the job or its mirror, before (strict) or by, whether deliveries count later (cover 0).
#[derive(Clone, Copy)]
pub struct Stance {
    pub mirror: bool,
    pub strict: bool,
    pub later: bool,
}

// What a rule sees at an event, its subject: the number of events, how it counts, and the limit and the opening stock of its side.
#[derive(Clone, Copy)]
pub struct View {
    pub subject: usize,
    pub events: usize,
    pub stance: Stance,
    pub limit: Height,
    pub opening: Height,
}

// A view on a board, the numbers of both in range.
#[derive(Clone, Copy)]
pub struct Sight<'a> {
    pub board: &'a Board,
    pub view: View,
    pub ghost sighted: { OnBoard view board.now.words },
}
