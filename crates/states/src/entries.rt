// The table of thread entries. A statement changes an entry only through this table's own `&mut self`.
ghost use Rattle.std.specs.Prelude.{◌≡◌, Some, None, if◌then◌else◌, nat_lt};
ghost use Rattle.states.specs.Entries.{entry_of, awake, started, with_entry, labelled, with_local, local_in};

use kinds::Kind;
use records::lookup::{item_or, set_item};
use records::statement::{Label, Thread};

// The label is the number of the statement that is due next; at the number of its statements the thread has ended.
#[derive(Clone, Copy)]
pub struct ThreadEntry {
    pub label: Label,
    pub locals: [u32; 8],
    pub created: bool,
}

#[derive(Clone, Copy)]
pub struct ThreadTable {
    pub entries: [ThreadEntry; 8],
}

// Where the entry of thread `i` is, if there is one.
fn place(i: Thread) -> Option<usize>
    ensures { result ≡ (if nat_lt i.0 8 then Some i.0 else None) }
{
    if i.0 < 8 {
        Some(usize::from(i.0))
    } else {
        None
    }
}

impl ThreadTable {
    // At the start of a run only thread 0 is created.
    pub fn start<V: Kind>() -> ThreadTable
        ensures { result.entries ≡ started V.meaning }
    {
        let asleep = ThreadEntry {
            label: Label(0),
            locals: [V::fresh_code(); 8],
            created: false,
        };
        let mut table = ThreadTable {
            entries: [asleep; 8],
        };
        table.entries[0].created = true;
        table
    }

    // The label of thread `i`, and 0 where there is no such thread.
    pub fn label(&self, i: Thread) -> Label
        ensures { result ≡ (entry_of self.now.entries i.0).label }
    {
        match place(i) {
            Some(at) => self.entries[at].label,
            None => Label(0),
        }
    }

    pub fn created(&self, i: Thread) -> bool
        ensures { result ≡ (entry_of self.now.entries i.0).created }
    {
        match place(i) {
            Some(at) => self.entries[at].created,
            None => false,
        }
    }

    // The code in local cell `n` of thread `i`, and the fresh code where there is none.
    pub fn local<V: Kind>(&self, i: Thread, n: u8) -> u32
        ensures { result ≡ local_in V.meaning (entry_of self.now.entries i.0) n }
    {
        match place(i) {
            Some(at) => item_or(&self.entries[at].locals, n, V::fresh_code()),
            None => V::fresh_code(),
        }
    }

    pub fn set_local(&mut self, i: Thread, n: u8, c: u32)
        ensures { self.new.entries ≡ with_entry self.old.entries i.0 (with_local (entry_of self.old.entries i.0) n c) }
    {
        if let Some(at) = place(i) {
            set_item(&mut self.entries[at].locals, n, c);
        }
    }

    pub fn go_to(&mut self, i: Thread, t: Label)
        ensures { self.new.entries ≡ with_entry self.old.entries i.0 (labelled (entry_of self.old.entries i.0) t) }
    {
        if let Some(at) = place(i) {
            self.entries[at].label = t;
        }
    }

    // A thread that the table does not have cannot be created.
    pub fn create(&mut self, j: Thread)
        ensures { self.new.entries ≡ with_entry self.old.entries j.0 (awake (entry_of self.old.entries j.0)) }
    {
        if let Some(at) = place(j) {
            self.entries[at].created = true;
        }
    }
}
