// A session: a program, and how far the walk over its schedules has come.
use crate::job::Stage;
use kinds::Kind;
use threads::machine::Machine;
use threads::point::Point;
use walks::walk::Walk;

mod makes;
mod plays;
mod surveys;

// The thread side of a job, and all of one for callers that never look at the sequential program. The stage says which of
// the rest means something: the table from Loaded on, and the walk where it is Translated.
#[derive(Drop)]
pub struct Session<V: Kind> {
    pub(crate) stage: Stage,
    pub(crate) machine: Machine<V>,
    pub(crate) survey: Walk<Point>,
}
