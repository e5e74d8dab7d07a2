// The run of the driver: from guess to guess.
ghost use Rattle.std.specs.Prelude.{◌≡◌, ◌<◌, ◌≤◌, true, length, drop, is_some};
ghost use Rattle.reports.specs.Players.{with_point, over};
ghost use Rattle.sequences.specs.Acts.{call as called_so};
ghost use Rattle.sequences.specs.Drives.{move, move_of, first_move, proceeds, guessed, turn as turned_so};
ghost use Rattle.sequences.specs.Passages.{with_state};
ghost use Rattle.sequences.specs.Sequences.{codes_of, sections_of, guide_of, instructions, starts};
ghost use Rattle.sequences.specs.Strides.{strode, entered, stride as strides_so};

use crate::instruction::{Address, Instruction, Word};
use crate::point::SeqPoint;
use crate::section::{Section, call_section};
use crate::sequence::{Part, Sequence};
use crate::state::{STOP_AT, SeqState};
use kinds::Kind;
use records::lookup::{item_or, part_of};
use records::statement::Thread;
use reports::report::{SlotCount, Turn};
use std::ops::ControlFlow;
use walks::outcome::{Ending, Outcome};

// The driver goes on behind an instruction with the latest CALL's count, or the turn is over.
type Stride = ControlFlow<Turn, u8>;

impl<V: Kind> Sequence<V> {
    // The initial codes of the cells.
    pub fn cells(&self) -> &[u32]
        ensures value { result.now ≡ codes_of self.now }
        ensures few { length result.now ≤ 16 }
    {
        self.cells.as_slice()
    }

    // The driver's instructions.
    pub fn driver(&self) -> &[Instruction]
        ensures value { result.now ≡ guide_of self.now }
        ensures few { length result.now ≤ 257 }
    {
        self.driver.as_slice()
    }

    // The section of thread `i`.
    pub fn section(&self, i: Thread) -> &[Instruction]
        ensures value { result.now ≡ sections_of self.now i.0 }
        ensures few { length result.now ≤ 255 }
    {
        let none = Part { first: 0, size: 0 };
        let part = item_or(self.parts.as_slice(), i.0, none);
        part_of(self.sections.as_slice(), part.first, part.size)
    }

    // The driver's instruction at an address, if there is one. Then one more is an address too.
    fn next(&self, at: Address) -> Option<Instruction>
        ensures value { move_of result ≡ first_move (drop at.0 (guide_of self.now)) }
        ensures below { is_some result ≡ true → at.0 < 257 }
    {
        self.driver().get(usize::from(at.0)).copied()
    }

    // Thread `i`'s section, called at a point.
    fn enter(&self, at: &mut SeqPoint, i: Thread) -> Stride
        requires { at.old.at.0 < 257 }
        ensures { strode result at.new ≡ entered at.old.at.0 (called_so V.meaning i.0 (sections_of self.now i.0) at.old.state) (called_so V.meaning i.0 (sections_of self.now i.0) at.old.state).end }
    {
        let section = call_section::<V>(&mut at.state, i, self.section(i));
        match section.end {
            Ok(()) => {
                at.at = Address(at.at.0 + 1);
                ControlFlow::Continue(section.count)
            }
            Err(stop) => ControlFlow::Break(Turn::ended(
                SlotCount(section.count),
                Ending::from(stop),
            )),
        }
    }

    // One instruction of the driver at a point.
    fn obey(&self, at: &mut SeqPoint, count: u8, instruction: Instruction) -> Stride
        requires { at.old.at.0 < 257 }
        ensures { strode result at.new ≡ strides_so V.meaning (sections_of self.now) at.old.at.0 count at.old.state (move instruction) }
    {
        let behind = Address(at.at.0 + 1);
        match instruction {
            Instruction::Slot { i, to } => {
                at.at = if at.state.word(Word::active(i).into()) == 0 {
                    to
                } else {
                    behind
                };
                ControlFlow::Continue(count)
            }
            Instruction::Guess { i, n } => {
                let bound = n.saturating_sub(at.state.saved(i));
                ControlFlow::Break(Turn {
                    count: SlotCount(count),
                    outcome: Outcome::Open(bound),
                })
            }
            Instruction::Call { i } => self.enter(at, i),
            Instruction::Save { i } => {
                let label = at.state.word(STOP_AT);
                at.state.save(i, label);
                at.at = behind;
                ControlFlow::Continue(count)
            }
            Instruction::End => ControlFlow::Break(Turn::ended(SlotCount(count), Ending::Full)),
            _ => ControlFlow::Break(Turn::ended(SlotCount(count), Ending::Cut)),
        }
    }

    // The driver's instruction at a point; where there is none, the run is cut.
    fn stride(&self, at: &mut SeqPoint, count: u8) -> Stride
        ensures { strode result at.new ≡ strides_so V.meaning (sections_of self.now) at.old.at.0 count at.old.state (first_move (drop at.old.at.0 (guide_of self.now))) }
    {
        match self.next(at.at) {
            Some(instruction) => self.obey(at, count, instruction),
            None => ControlFlow::Break(Turn::ended(SlotCount(count), Ending::Cut)),
        }
    }

    // From a point to the next GUESS, or to the end.
    fn proceed(&self, at: &mut SeqPoint) -> Turn
        ensures { with_point result at.new ≡ proceeds V.meaning (instructions self.now) at.old.at.0 at.old.state }
    {
        let mut count = 0;
        // Steps are counted so that the loop ends whatever the driver is.
        for _step in 0..self.driver.len() {
            match self.stride(at, count) {
                ControlFlow::Continue(c) => count = c,
                ControlFlow::Break(turn) => return turn,
            }
        }
        Turn::ended(SlotCount(count), Ending::Cut)
    }

    // The number read by GUESS `i n` at a point.
    fn guess(&self, at: &mut SeqPoint, i: Thread, n: u8, number: u8) -> Turn
        requires { at.old.at.0 < 257 }
        ensures { with_point result at.new ≡ guessed V.meaning (instructions self.now) at.old.at.0 i.0 n number at.old.state }
    {
        let label = at.state.saved(i);
        if number > n.saturating_sub(label) {
            return Turn::ended(SlotCount(0), Ending::Cut);
        }
        at.state.set_word(STOP_AT, label + number);
        at.at = Address(at.at.0 + 1);
        self.proceed(at)
    }

    // Goes on from a point by one number; where no GUESS waits, the run is cut.
    pub fn turn(&self, at: &mut SeqPoint, number: u8) -> Turn
        ensures { with_point result at.new ≡ turned_so V.meaning (instructions self.now) at.old number }
    {
        match self.next(at.at) {
            Some(Instruction::Guess { i, n }) => self.guess(at, i, n, number),
            _ => Turn::ended(SlotCount(0), Ending::Cut),
        }
    }

    // How a run stands before its first number, and where.
    pub fn first(&self) -> (Outcome, SeqPoint)
        ensures outcome { result.0 ≡ (starts V.meaning self.now).outcome }
        ensures point { result.1 ≡ (starts V.meaning self.now).point }
    {
        let mut at = SeqPoint {
            at: Address(0),
            state: SeqState::start::<V>(self.cells()),
        };
        let turn = self.proceed(&mut at);
        (turn.outcome, at)
    }
}
