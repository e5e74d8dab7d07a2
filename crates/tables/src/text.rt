// A thread's text.

// How many local cells a thread has, and which statements of the table are its own: `size` of them from `first` on.
#[derive(Clone, Copy, PartialEq, Eq)]
pub struct ThreadText {
    pub locals: u8,
    pub first: usize,
    pub size: u8,
}
