// The state of the sequential program: plain numbers, and the cells.
ghost use Rattle.std.specs.Prelude.{◌≡◌, ◌≤◌, length, slice_index_or, slice_set};
ghost use Rattle.sequences.specs.States.{word as word_of, with_word, value as value_of, put as put_by, locals_of, with_locals, begun};
ghost use Rattle.sequences.specs.Words.{saved as saved_word};

use kinds::Kind;
use records::lookup::{item_or, set_item};
use records::statement::{Place, Thread};
use states::state::initial_cells;

// The word that says at which label the thread that runs now is to stop.
pub const STOP_AT: usize = 24;

// The word that holds the label at which thread `i` stopped.
pub fn saved(i: Thread) -> usize
    ensures { result ≡ saved_word i.0 }
{
    8 + usize::from(i.0)
}

#[derive(Clone, Copy)]
pub struct SeqState {
    pub words: [u8; 25],
    pub cells: [u32; 16],
    pub locals: [[u32; 8]; 8],
}

impl SeqState {
    // The state at the start of a run, from the initial codes of the cells.
    pub(crate) fn start<V: Kind>(codes: &[u32]) -> SeqState
        requires { length codes.now ≤ 16 }
        ensures { result ≡ begun V.meaning codes.now }
    {
        let mut words = [0; 25];
        words[0] = 1;
        SeqState {
            words,
            cells: initial_cells::<V>(codes),
            locals: [[V::fresh_code(); 8]; 8],
        }
    }

    // A word by its number, and 0 where there is none.
    pub fn word(&self, w: usize) -> u8
        ensures { result ≡ word_of self.now w }
    {
        self.words.get(w).copied().unwrap_or(0)
    }

    pub fn set_word(&mut self, w: usize, v: u8)
        ensures { self.new ≡ with_word self.old w v }
    {
        // No `get_mut`: its contract says nothing of what the words end as.
        if w < 25 {
            self.words[w] = v;
        }
    }

    // The label at which thread `i` stopped.
    pub fn saved(&self, i: Thread) -> u8
        ensures { result ≡ word_of self.now (saved_word i.0) }
    {
        self.word(saved(i))
    }

    // Thread `i` stopped at a label.
    pub fn save(&mut self, i: Thread, label: u8)
        ensures { self.new ≡ with_word self.old (saved_word i.0) label }
    {
        self.set_word(saved(i), label);
    }

    // The code in local cell `n` of thread `i`, and the fresh code where there is none.
    fn local<V: Kind>(&self, i: Thread, n: u8) -> u32
        ensures { result ≡ slice_index_or (locals_of self.now i.0) n V.meaning.fresh }
    {
        match self.locals.get(usize::from(i.0)) {
            Some(cells) => item_or(cells, n, V::fresh_code()),
            None => V::fresh_code(),
        }
    }

    fn set_local(&mut self, i: Thread, n: u8, c: u32)
        ensures { self.new ≡ with_locals self.old i.0 (slice_set (locals_of self.old i.0) n c) }
    {
        // No `get_mut`: its contract says nothing of what the slice ends as.
        if i.0 < 8 {
            set_item(&mut self.locals[usize::from(i.0)], n, c);
        }
    }

    // The code that thread `i` reads at a place.
    pub fn value<V: Kind>(&self, i: Thread, p: Place) -> u32
        ensures { result ≡ value_of V.meaning self.now i.0 p }
    {
        match p {
            Place::Shared(n) => item_or(&self.cells, n, V::fresh_code()),
            Place::Local(n) => self.local::<V>(i, n),
        }
    }

    // Thread `i` writes a code to a place.
    pub fn put(&mut self, i: Thread, p: Place, c: u32)
        ensures { self.new ≡ put_by self.old i.0 p c }
    {
        match p {
            Place::Shared(n) => set_item(&mut self.cells, n, c),
            Place::Local(n) => self.set_local(i, n, c),
        }
    }
}
