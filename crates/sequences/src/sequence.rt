// The sequential program of a table. Its memory is reserved when it is made, so that no later call wants any.
use crate::instruction::Instruction;
use kinds::Kind;
use records::reserved::Reserved;
use std::marker::PhantomData;

// Which instructions are a section: `size` of them from `first` on.
#[derive(Clone, Copy)]
pub struct Part {
    pub first: usize,
    pub size: u8,
}

// The driver has room for eight rounds of eight threads, and the sections for eight threads of 48 statements.
pub(crate) type Driver = Reserved<Instruction, 257>;

pub(crate) type Sections = Reserved<Instruction, 1936>;

// The initial codes of the cells, the driver, and the sections of all threads one behind the other.
#[derive(Drop)]
pub struct Sequence<V: Kind> {
    pub(crate) cells: Reserved<u32, 16>,
    pub(crate) driver: Driver,
    pub(crate) sections: Sections,
    pub(crate) parts: Reserved<Part, 8>,
    pub(crate) kind: PhantomData<V>,
}
