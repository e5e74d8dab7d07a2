// Where a failing list was found.

// How many numbers the list has, and how many leaves had been visited with it.
#[derive(Clone, Copy)]
pub struct Found {
    pub length: u8,
    pub position: u32,
}
