// A point between two slots, from which a run can go on.
use states::state::State;

// How many slots have gone by, existing or not, and the state behind them.
#[derive(Clone, Copy)]
pub struct Point {
    pub slot: u8,
    pub state: State,
}
