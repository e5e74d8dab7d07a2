// What the records so far have said.

// The record that is due: a cell or a thread by its index, a statement by its own number.
#[derive(Clone, Copy, PartialEq, Eq)]
pub enum Due {
    Header,
    Cell(u8),
    Thread(u8),
    Statement(u8),
    End,
}

#[derive(Clone, Copy, PartialEq, Eq)]
pub struct Context {
    pub due: Due,
    pub cells: u8,
    pub mutexes: u8,
    pub threads: u8,
    // of the thread whose TH record was read last: its number, its local cells, its statements
    pub thread: u8,
    pub locals: u8,
    pub size: u8,
    // the threads that a CREATE has named
    pub created: [bool; 8],
}
