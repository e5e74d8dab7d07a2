// What a walk has counted.
ghost use Rattle.std.specs.Prelude.{◌≡◌, ◌+◌, ◌^◌, ◌<◌, ◌≤◌, length};

mod notes;

// The list that failed last, the numbers up to the depth, and how many leaves had been visited with it. No ArrayVec: it
// would be filled by one push for each number.
#[derive(Clone, Copy)]
pub struct Latest {
    pub numbers: [u8; 64],
    pub depth: usize,
    pub position: u32,
    ghost few: { depth ≤ 64 },
    ghost wide: { length numbers ≡ 64 },
}

// The leaves visited, by how they ended.
#[derive(Clone, Copy)]
pub struct Tally {
    pub failed: u32,
    pub cut: u32,
    pub full: u32,
    pub latest: Option<Latest>,
    ghost fits: { failed + cut + full < 2 ^ 32 },
}
