// Why a slot is over before it is done.
ghost use Rattle.std.specs.Prelude.{◌≡◌};
ghost use Rattle.reports.specs.Stops.{ending};

use walks::outcome::Ending;

// A statement failed, or the slot is cut: a statement blocks, or the number is too high.
#[derive(Clone, Copy)]
pub enum Stop {
    Failed,
    Cut,
}

// What stops a slot ends the run.
impl From<Stop> for Ending {
    ghost from_gives = { λ stop e. e ≡ ending stop };

    fn from(stop: Stop) -> Ending {
        match stop {
            Stop::Failed => Ending::Failed,
            Stop::Cut => Ending::Cut,
        }
    }
}
