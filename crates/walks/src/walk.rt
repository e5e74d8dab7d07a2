// A walk over the leaves of a runner, in dictionary order.

use crate::cursor::Cursor;
use crate::tally::Tally;

mod counts;
mod visits;

// Where the walk stands, and what it has counted of the leaves before that.
#[derive(Drop)]
pub struct Walk<P: Copy> {
    cursor: Cursor<P>,
    tally: Tally,
}

// Whether leaves are left.
#[derive(Clone, Copy, Debug, PartialEq, Eq)]
pub enum Answer {
    Done,
    Spent,
}
