// A job of several cages, one of them at a time: the board as the events of one cage see it, what moved there put back, and where that cage ends.
#![tactic(auto)]

ghost use Rattle.std.specs.Prelude.{◌≡◌, ◌<◌};
ghost use Rattle.model.specs.Job.{End};
ghost use Rattle.model.specs.View.{shown};
ghost use Rattle.tables.specs.Windows.{at_end};
ghost use Rattle.cages.specs.Masking.{together, Homed, Masked, Joined, Stretch, Ends};

use tables::{Board, Windows, cage_of};

// An event's windows, its amounts only if it is in the cage.
fn seen(own: bool, w: Windows) -> Windows
    ensures { (k : End) → at_end result k ≡ shown own k (at_end w k) }
{
    Windows {
        h_min: w.h_min.kept(own),
        h_max: w.h_max.kept(own),
        ..w
    }
}

// An event whose cage is looked at: the window table, how many events it has, which loops and contracts name, and which of them this one is.
#[derive(Clone, Copy)]
pub struct Home<'a> {
    pub table: &'a [i32],
    pub events: usize,
    pub subject: usize,
    ghost homed: { Homed events table.now },
    ghost there: { subject < events },
}

impl Home<'_> {
    // Is y in its cage?
    pub fn holds(&self, y: usize) -> bool
        requires { y < self.now.events }
        ensures { result ≡ together self.now.table.now self.now.subject y }
    {
        cage_of(self.table, y) == cage_of(self.table, self.subject)
    }

    // Where the neighbours of the event end, from it on, that are in its cage.
    pub fn stretch_end(&self) -> usize
        ensures { Stretch self.now.events self.now.table.now self.now.subject result }
    {
        for y in self.subject + 1..self.events {
            if !self.holds(y) {
                return y;
            }
        }
        self.events
    }

    // Where its cage ends: no event from there on is in it.
    pub fn cage_end(&self) -> usize
        ensures { Ends self.now.events self.now.table.now self.now.subject result }
    {
        for y in (self.subject + 1..self.events).rev() {
            if self.holds(y) {
                return y + 1;
            }
        }
        self.subject + 1
    }

    // The board as the event sees it: the events of other cages are neutral.
    pub fn mask(&self, b: &Board, s: &mut Board)
        ensures { Masked self.now.events self.now.table.now self.now.subject b.now.words s.new.words }
    {
        for y in 0..self.events {
            let own = self.holds(y);
            s.set_windows(y, seen(own, b.windows(y)));
        }
    }

    // What moved in its cage, put back onto the board of the job.
    pub fn join(&self, s: &Board, b: &mut Board)
        ensures { Joined self.now.events self.now.table.now self.now.subject b.old.words s.now.words b.new.words }
    {
        for y in 0..self.events {
            if self.holds(y) {
                b.set_windows(y, s.windows(y));
            }
        }
    }
}
