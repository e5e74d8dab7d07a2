// A point between two guesses, from which a run can go on.
use crate::instruction::Address;
use crate::state::SeqState;

// The driver's next instruction, and the state before it.
#[derive(Clone, Copy)]
pub struct SeqPoint {
    pub at: Address,
    pub state: SeqState,
}
