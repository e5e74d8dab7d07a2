// The report of a run, and the questions that a call asks before it.
ghost use Rattle.std.specs.Prelude.{◌≡◌, ◌+◌, ◌^◌, ◌<◌, length};
ghost use Rattle.reports.specs.Players.{over};
ghost use Rattle.reports.specs.Reports.{refusal, answered, noted};

use records::refusal::Refusal;
use walks::outcome::{Ending, Outcome};

// What a list of numbers came to: how many were read, and how many statements were carried out in all.
#[derive(Clone, Copy)]
pub struct Report {
    pub outcome: Outcome,
    pub read: u8,
    pub carried: u16,
}

// How many statements a thread carries out in a slot. Never a place in its text: that is a `Label`.
#[derive(Clone, Copy, PartialEq, Eq)]
pub struct SlotCount(pub u8);

// What a number came to: the statements carried out in its slot, and how the run stands then.
#[derive(Clone, Copy)]
pub struct Turn {
    pub count: SlotCount,
    pub outcome: Outcome,
}

impl Turn {
    // A number with which the run has ended.
    pub fn ended(count: SlotCount, ending: Ending) -> Turn
        ensures { result ≡ over count.0 ending }
    {
        Turn {
            count,
            outcome: Outcome::Ended(ending),
        }
    }
}

impl Report {
    // One number more was read, and came to this.
    pub(crate) fn note(&mut self, turn: Turn)
        requires read { self.old.read < 255 }
        requires carried { self.old.carried + turn.count.0 < 2 ^ 16 }
        ensures { self.new ≡ noted self.old turn }
    {
        self.read += 1;
        self.carried += u16::from(turn.count.0);
        self.outcome = turn.outcome;
    }
}

// The questions of a run: the numbers, and the room for what is written, the program having so many cells.
pub fn asked(numbers: &[u8], counts: &[u8], cells: &[u32], own: usize) -> Result<(), Refusal>
    ensures { result ≡ answered (refusal numbers.now counts.now cells.now own) tt }
{
    if numbers.len() > 64 {
        return Err(Refusal::ListLength);
    }
    if counts.len() < numbers.len() {
        return Err(Refusal::BufferShort);
    }
    if cells.len() < own {
        return Err(Refusal::BufferShort);
    }
    Ok(())
}
