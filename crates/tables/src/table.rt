// The table of a program. Its memory is reserved when it is made, so that no later call wants any.
ghost use Rattle.std.specs.Prelude.{◌≤◌, length};

use crate::text::ThreadText;
use records::reserved::Reserved;
use records::statement::Statement;

mod loads;
mod reads;
mod saves;

// At most 16 cells and 8 threads. A file has at most 409 records, so no program has more statements.
#[derive(Drop)]
pub struct Table {
    mutexes: u8,
    cells: Reserved<u32, 16>,
    texts: Reserved<ThreadText, 8>,
    // The statements of all threads one behind the other. A list for each thread would have to be reserved for the
    // longest eight times over, and kept where a program has fewer threads.
    statements: Reserved<Statement, 409>,
    // What the lists' own types keep, said here too: a caller has it of a table without a call.
    ghost cells_few: { length cells ≤ 16 },
    ghost texts_few: { length texts ≤ 8 },
    ghost statements_few: { length statements ≤ 409 },
}
