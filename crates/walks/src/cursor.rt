// Where a walk stands.
ghost use Rattle.std.specs.Prelude.{◌≡◌, ◌≤◌, length};

mod descends;
mod moves;

// The bound of a number that is tried, and the point before it.
#[derive(Clone, Copy)]
pub struct Level<P> {
    pub bound: u8,
    pub point: P,
}

// The numbers of the list that is tried next, a level for each, and one behind them, with room for the point behind the
// last number. What else lies past the depth means nothing. The numbers lie beside the levels, so that a tally keeps a
// failing list by one copy.
// No ArrayVec: it writes a blank over each level that is left, and so an explorer in Rust took 1.1 to 2 times as long.
#[derive(Drop)]
pub struct Cursor<P: Copy> {
    pub numbers: [u8; 64],
    pub levels: [Level<P>; 65],
    pub depth: usize,
    ghost few: { depth ≤ 64 },
    ghost numbers_wide: { length numbers ≡ 64 },
    ghost wide: { length levels ≡ 65 },
}
