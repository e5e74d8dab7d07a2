// The instructions of the sequential program.
ghost use Rattle.std.specs.Prelude.{◌≡◌, min};
ghost use Rattle.sequences.specs.Words.{active as active_word, saved as saved_word, lock as lock_word};

use crate::state;
use records::statement::{Label, Mutex, Place, Thread};

// A place in a section or in the driver: how many instructions stand before it.
#[derive(Clone, Copy)]
pub struct Address(pub u16);

// One of the 25 words of the sequential program, by its number (see specs/Words.antt).
#[derive(Clone, Copy)]
pub struct Word(pub u8);

// The word of `state::STOP_AT`.
pub const STOP_AT: Word = Word(state::STOP_AT as u8);

// No state has a word 255: it stands for the words of threads and mutexes whose numbers are too high for a word.
impl Word {
    // The word that says whether thread `i` is active.
    pub fn active(i: Thread) -> Word
        ensures { result.0 ≡ active_word i.0 }
    {
        Word(i.0)
    }

    // The word that holds the label at which thread `i` stopped.
    pub fn saved(i: Thread) -> Word
        ensures { result.0 ≡ min (saved_word i.0) 255 }
    {
        Word(i.0.saturating_add(8))
    }

    // The word of mutex `m`.
    pub fn lock(m: Mutex) -> Word
        ensures { result.0 ≡ min (lock_word m.0) 255 }
    {
        Word(m.0.saturating_add(16))
    }
}

// A state is asked for its words by their numbers.
impl From<Word> for usize {
    ghost from_gives = { λ word n. n ≡ word.0 };

    fn from(word: Word) -> usize {
        usize::from(word.0)
    }
}

// The first ten are the statements that stay themselves, with addresses for labels; then those that stand around and in
// place of the other statements; then the driver's.
#[derive(Clone, Copy)]
pub enum Instruction {
    Set { d: Place, c: u32 },
    Copy { d: Place, a: Place },
    Sum { d: Place, a: Place, b: Place },
    Difference { d: Place, a: Place, b: Place },
    Less { d: Place, a: Place, b: Place },
    Same { d: Place, a: Place, b: Place },
    Jump { to: Address },
    Branch { a: Place, to: Address },
    Assume { a: Place },
    Assert { a: Place },
    // to the next label behind its guard, unless the label t is one that the thread has to run now
    Hop { i: Thread, t: Label, to: Address },
    // cuts a run that has to stop before the label t
    Guard { t: Label },
    Return,
    // fails unless the word is v
    Must { w: Word, v: u8 },
    // fails if the word is v
    MustNot { w: Word, v: u8 },
    // cuts unless the word is v
    Need { w: Word, v: u8 },
    Put { w: Word, v: u8 },
    // past the slot of a thread that is not active
    Slot { i: Thread, to: Address },
    // reads a number: how far beyond its saved label thread i, of n statements, is to go
    Guess { i: Thread, n: u8 },
    Call { i: Thread },
    Save { i: Thread },
    End,
}
