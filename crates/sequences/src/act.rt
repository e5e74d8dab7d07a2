// What an instruction of a section comes to in a state, before anything is changed.
ghost use Rattle.std.specs.Prelude.{◌≡◌, if◌then◌else◌};
ghost use Rattle.sequences.specs.declared.act.Act.TheVariants.{On};
ghost use Rattle.sequences.specs.Acts.{act as said_act, whole as is_whole, hopping};

use crate::instruction::{Address, Instruction, Word};
use crate::state::{STOP_AT, SeqState};
use kinds::Kind;
use records::statement::{Label, Place, Thread};

// The flag of `On` and `To` says whether the instruction completes its statement; `Write` and `Mark` always do.
#[derive(Clone, Copy)]
pub enum Act {
    On(bool),
    Write(Place, u32),
    Mark(Word, u8),
    To(bool, Address),
    Back,
    Fail,
    Stop,
}

// A NEED of a saved label is a whole JOIN; one of a mutex is a part of a LOCK.
fn whole(w: Word) -> bool
    ensures { result ≡ is_whole w.0 }
{
    8 <= w.0 && w.0 < 16
}

// The section goes on if a test holds; `counts` says whether that completes a statement.
fn on_if(holds: bool, counts: bool, otherwise: Act) -> Act
    ensures { result ≡ (if holds then On counts else otherwise) }
{
    if holds { Act::On(counts) } else { otherwise }
}

// A HOP passes over a label that thread `j` has left behind or that it is not to reach now.
fn hop(state: &SeqState, j: Thread, t: Label, to: Address) -> Act
    ensures { result ≡ hopping state.now j t to }
{
    if t.0 < state.saved(j) || state.word(STOP_AT) <= t.0 {
        Act::To(false, to)
    } else {
        Act::On(false)
    }
}

// What an instruction in thread `i`'s section comes to.
pub(crate) fn act_of<V: Kind>(state: &SeqState, i: Thread, instruction: Instruction) -> Act
    ensures { result ≡ said_act V.meaning i.0 state.now instruction }
{
    let value = |p: Place| state.value::<V>(i, p);
    match instruction {
        Instruction::Set { d, c } => Act::Write(d, c),
        Instruction::Copy { d, a } => Act::Write(d, value(a)),
        Instruction::Sum { d, a, b } => Act::Write(d, V::sum(value(a), value(b))),
        Instruction::Difference { d, a, b } => Act::Write(d, V::difference(value(a), value(b))),
        Instruction::Less { d, a, b } => Act::Write(d, V::less(value(a), value(b))),
        Instruction::Same { d, a, b } => Act::Write(d, V::same(value(a), value(b))),
        Instruction::Jump { to } => Act::To(true, to),
        Instruction::Branch { a, to } => on_if(V::holds(value(a)), true, Act::To(true, to)),
        Instruction::Assume { a } => on_if(V::holds(value(a)), true, Act::Stop),
        Instruction::Assert { a } => on_if(V::holds(value(a)), true, Act::Fail),
        Instruction::Hop { i: j, t, to } => hop(state, j, t, to),
        Instruction::Guard { t } => on_if(t.0 <= state.word(STOP_AT), false, Act::Stop),
        Instruction::Return => Act::Back,
        Instruction::Must { w, v } => on_if(state.word(w.into()) == v, false, Act::Fail),
        Instruction::MustNot { w, v } => on_if(state.word(w.into()) != v, false, Act::Fail),
        Instruction::Need { w, v } => on_if(state.word(w.into()) == v, whole(w), Act::Stop),
        Instruction::Put { w, v } => Act::Mark(w, v),
        Instruction::Slot { .. }
        | Instruction::Guess { .. }
        | Instruction::Call { .. }
        | Instruction::Save { .. }
        | Instruction::End => Act::Stop,
    }
}
