// Rounds until settled, conflict or stopped, for want of room or of rounds.
ghost use Rattle.std.specs.Prelude.{◌≡◌, pos, nat_abs, ◌≤ℤ◌};
ghost use Rattle.std.specs.Option.{option_map};
ghost use Rattle.rounds.specs.State.{status_of};
ghost use Rattle.propagator.specs.Runs.{verdict_of, ending_of, fuel_of, Ran};

use crate::{Ended, Verdict};
use rounds::{Log, Status};
use turns::Call;

// How a run ends after a round that leaves this status and was idle, which is to write no slip, or not; if it does.
fn ending(status: Status, idle: bool) -> Option<Verdict>
    ensures { option_map verdict_of result ≡ ending_of (status_of status) idle }
{
    match status {
        Status::Conflict => Some(Verdict::Conflict),
        Status::Stopped => Some(Verdict::Stopped),
        Status::Running => idle.then_some(Verdict::Settled),
    }
}

// As many rounds as a round limit lets be begun, 0 for none: without one the room is enough, since each but the last writes a slip.
pub fn fuel(limit: i32, room: usize) -> usize
    requires { pos 0 ≤ℤ limit }
    ensures { result ≡ fuel_of (nat_abs limit) room }
{
    let rounds = limit as usize;
    if rounds == 0 { room } else { rounds }
}

// Rounds until one writes no slip, or a conflict, the room or the fuel, a number of rounds, ends the call.
pub fn run(call: &mut Call<'_>, log: &mut Log<'_>, fuel: usize) -> Ended
    ensures { Ran fuel call.old log.old call.new log.new result }
{
    for rounds in 1..=fuel {
        let slips = log.slips;
        call.turn(log);
        if let Some(verdict) = ending(log.status, log.slips == slips) {
            return Ended { verdict, rounds };
        }
    }
    Ended {
        verdict: Verdict::Stopped,
        rounds: fuel,
    }
}
