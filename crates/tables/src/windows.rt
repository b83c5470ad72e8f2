// The windows of one event.
ghost use Rattle.std.specs.Prelude.{◌+◌, ◌*◌, ◌≤◌, length};
ghost use Rattle.model.specs.Job.{windows};
ghost use Rattle.tables.specs.Windows.{Event};

use crate::{Height, Time};

// The windows of one event.
#[derive(Clone, Copy)]
pub struct Windows {
    pub t_min: Time,
    pub t_max: Time,
    pub h_min: Height,
    pub h_max: Height,
}

impl Windows {
    // Those of event y of a window table.
    pub fn of_event(table: &[i32], y: usize) -> Windows
        requires { 5 * y + 5 ≤ length table.now }
        ensures { Event (windows table.now) y result }
    {
        Windows {
            t_min: Time(table[5 * y]),
            t_max: Time(table[5 * y + 1]),
            h_min: Height(table[5 * y + 2]),
            h_max: Height(table[5 * y + 3]),
        }
    }
}
