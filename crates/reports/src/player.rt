// A machine that reads numbers one by one, and its run over a list of them.
ghost use Rattle.std.specs.Prelude.{◌≡◌, ℕ, ◌≤◌, List, length};
ghost use Rattle.reports.specs.Reports.{front, refusal, answered, unless};
ghost use Rattle.reports.specs.Players.{Turned, with_point, goes, tells, reported};

use crate::report::{Report, Turn, asked};
use records::refusal::Refusal;
use walks::outcome::Outcome;

// A run can go on from a point, so that no number is read twice.
pub trait Player {
    type Point: Copy;

    // how a run stands before its first number, and where; its count means nothing
    ghost begins: { Self → Turned Self.Point };

    // one number at a point
    ghost turns: { Self → Self.Point → ℕ → Turned Self.Point };

    // how many cells the program has, and what they hold at a point
    ghost own: { Self → ℕ };

    ghost holds: { Self → Self.Point → List ℕ };

    fn begin(&self) -> (Outcome, Self::Point)
        ensures outcome { result.0 ≡ (begins self.now).outcome }
        ensures point { result.1 ≡ (begins self.now).point };

    // Goes on from a point by one number.
    fn read(&self, at: &mut Self::Point, number: u8) -> Turn
        ensures { with_point result at.new ≡ turns self.now at.old number };

    fn cell_count(&self) -> usize
        ensures { result ≡ own self.now };

    fn cells_at<'a>(&self, at: &'a Self::Point) -> &'a [u32]
        ensures value { result.now ≡ holds self.now at.now }
        ensures own { length result.now ≡ own self.now };
}

// Reads numbers at a point until the run has ended or none is left, and notes each number's count.
fn run<M: Player>(
    machine: &M,
    start: Outcome,
    at: &mut M::Point,
    numbers: &[u8],
    counts: &mut [u8],
) -> Report
    requires few { length numbers.now ≤ 64 }
    requires room { length numbers.now ≤ length counts.old }
    ensures report { result ≡ reported (goes (M.turns machine.now) start at.old numbers.now) }
    ensures counts { counts.new ≡ front (goes (M.turns machine.now) start at.old numbers.now).counts counts.old }
    ensures point { at.new ≡ (goes (M.turns machine.now) start at.old numbers.now).point }
{
    let mut report = Report {
        outcome: start,
        read: 0,
        carried: 0,
    };
    // By index: of a slice that `iter_mut` was zipped with, the library says nothing afterwards.
    for (j, number) in numbers.iter().enumerate() {
        if let Outcome::Ended(_) = report.outcome {
            return report;
        }
        let turn = machine.read(at, *number);
        counts[j] = turn.count.0;
        report.note(turn);
    }
    report
}

// `play` once its questions have a yes.
fn played<M: Player>(machine: &M, numbers: &[u8], counts: &mut [u8], cells: &mut [u32]) -> Report
    requires few { length numbers.now ≤ 64 }
    requires room { length numbers.now ≤ length counts.old }
    requires cells { M.own machine.now ≤ length cells.old }
    ensures report { result ≡ reported (tells (M.turns machine.now) (M.begins machine.now) numbers.now) }
    ensures counts { counts.new ≡ front (tells (M.turns machine.now) (M.begins machine.now) numbers.now).counts counts.old }
    ensures cells { cells.new ≡ front (M.holds machine.now (tells (M.turns machine.now) (M.begins machine.now) numbers.now).point) cells.old }
{
    let (outcome, mut at) = machine.begin();
    let report = run(machine, outcome, &mut at, numbers, counts);
    cells[0..machine.cell_count()].copy_from_slice(machine.cells_at(&at));
    report
}

// Runs over a list of numbers, and writes a count for each number that is read, and the cells that the run leaves. The
// three buffers are the caller's, each lent in its own way, and a struct of them would be made for this one call.
pub fn play<M: Player>(
    machine: &M,
    numbers: &[u8],
    counts: &mut [u8],
    cells: &mut [u32],
) -> Result<Report, Refusal>
    ensures answer { result ≡ answered (refusal numbers.now counts.old cells.old (M.own machine.now)) (reported (tells (M.turns machine.now) (M.begins machine.now) numbers.now)) }
    ensures counts { counts.new ≡ unless (refusal numbers.now counts.old cells.old (M.own machine.now)) (front (tells (M.turns machine.now) (M.begins machine.now) numbers.now).counts counts.old) counts.old }
    ensures cells { cells.new ≡ unless (refusal numbers.now counts.old cells.old (M.own machine.now)) (front (M.holds machine.now (tells (M.turns machine.now) (M.begins machine.now) numbers.now).point) cells.old) cells.old }
{
    asked(numbers, counts, cells, machine.cell_count())?;
    Ok(played(machine, numbers, counts, cells))
}
