// The owner of a section.
use records::statement::Thread;

// Whose instructions a section has: the driver's, or those of a thread that has so many local cells.
#[derive(Clone, Copy)]
pub enum Owner {
    Driver,
    Thread { i: Thread, locals: u8 },
}
