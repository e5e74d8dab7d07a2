// What a table says, part by part.
ghost use Rattle.std.specs.Prelude.{◌≡◌, ◌<◌, ◌≤◌, true, length, is_some};
ghost use Rattle.tables.specs.Program.{text_of, due, own, size};
ghost use Rattle.tables.specs.Tables.{view};

use crate::table::Table;
use crate::text::ThreadText;
use records::lookup::{item_or, part_of};
use records::statement::{Label, Statement, Thread};

impl Table {
    pub fn mutexes(&self) -> u8
        ensures { result ≡ (view self.now).mutexes }
    {
        self.mutexes
    }

    pub fn threads(&self) -> u8
        ensures value { result ≡ length (view self.now).texts }
        ensures few { result ≤ 8 }
    {
        self.texts.len() as u8
    }

    // The initial codes of the shared cells.
    pub fn cells(&self) -> &[u32]
        ensures value { result.now ≡ (view self.now).cells }
        ensures few { length result.now ≤ 16 }
    {
        self.cells.as_slice()
    }

    pub fn text(&self, i: Thread) -> ThreadText
        ensures { result ≡ text_of (view self.now) i.0 }
    {
        let none = ThreadText {
            locals: 0,
            first: 0,
            size: 0,
        };
        item_or(self.texts.as_slice(), i.0, none)
    }

    // How many statements thread `i` has.
    pub fn size(&self, i: Thread) -> u8
        ensures { result ≡ size (view self.now) i.0 }
    {
        self.text(i).size
    }

    // The statements of thread `i`.
    pub fn statements_of(&self, i: Thread) -> &[Statement]
        ensures value { result.now ≡ own (view self.now) i.0 }
        ensures few { length result.now ≤ 255 }
    {
        let text = self.text(i);
        part_of(self.statements.as_slice(), text.first, text.size)
    }

    // The statement of thread `i` at a label, if there is one. Then one more is a label too.
    pub fn statement(&self, i: Thread, t: Label) -> Option<Statement>
        ensures value { result ≡ due (view self.now) i.0 t.0 }
        ensures below { is_some result ≡ true → t.0 < 255 }
    {
        self.statements_of(i).get(usize::from(t.0)).copied()
    }
}
