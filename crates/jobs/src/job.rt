// The job.
use crate::session::Session;
use guesses::machine::SequentialMachine;
use kinds::Kind;
use sequences::point::SeqPoint;
use walks::walk::Walk;

mod drives;
mod files;
mod found;
mod makes;
mod plays;
mod walking;

#[derive(Clone, Copy, PartialEq, Eq)]
pub enum Stage {
    Empty,
    Loaded,
    Translated,
}

// A session, and beside it the sequential program and the walk over its guess lists. These mean something where the session
// is Translated. All is there from the start, since no call but making the job may want memory.
#[derive(Drop)]
pub struct Job<V: Kind> {
    pub(crate) session: Session<V>,
    pub(crate) sequential: SequentialMachine<V>,
    pub(crate) walk: Walk<SeqPoint>,
}
