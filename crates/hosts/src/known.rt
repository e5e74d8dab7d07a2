// The kind of value that a file is for.
ghost use Rattle.std.specs.Prelude.{◌≡◌};
ghost use Rattle.hosts.specs.Knowns.{known};

use kinds::{Kind, Truth};
use records::lookup::item_or;

// The kinds that programs know. Others are for callers of the libraries.
#[derive(Clone, Copy, PartialEq, Eq)]
pub enum KnownKind {
    Words,
    Truth,
}

impl KnownKind {
    // The kind that the file's third byte names: truth values, or else words.
    pub fn of(file: &[u8]) -> KnownKind
        ensures { result ≡ known file.now }
    {
        if item_or(file, 2, 0) == Truth::BYTE {
            KnownKind::Truth
        } else {
            KnownKind::Words
        }
    }
}
