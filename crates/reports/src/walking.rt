// A call of a walk: its questions, and the leaves that it visits.
ghost use Rattle.std.specs.Prelude.{◌≡◌, ◌+◌, ◌^◌, ◌<◌};
ghost use Rattle.walks.specs.Tallies.{visited};
ghost use Rattle.walks.specs.Walks.{Tied};
ghost use Rattle.reports.specs.Counts.{yes_or, over, limit_no, visits, Walked, Went};

use records::refusal::Refusal;
use walks::counts::Counts;
use walks::runner::Runner;
use walks::walk::{Answer, Walk};

// The most leaves that one call visits, and that a walk does in all.
pub const BUDGET_LIMIT: u32 = 65_536;

pub const LEAF_LIMIT: u32 = 16_777_216;

// The questions of a walk: the budget, and the leaves in all unless none is left.
fn asked<P: Copy>(walk: &Walk<P>, b: u32) -> Result<(), Refusal>
    ensures { result ≡ yes_or (limit_no (over walk.now) (visited walk.now.tally) b) }
{
    if b < 1 || b > BUDGET_LIMIT {
        return Err(Refusal::Budget);
    }
    if walk.answer() == Answer::Spent && walk.visited() > LEAF_LIMIT - b {
        return Err(Refusal::LeafLimit);
    }
    Ok(())
}

// How many leaves a call visits: none where none is left.
fn visits_of<P: Copy>(walk: &Walk<P>, b: u32) -> u32
    ensures { result ≡ visits (over walk.now) b }
{
    match walk.answer() {
        Answer::Done => 0,
        Answer::Spent => b,
    }
}

// Visits the next `b` leaves, or those left.
pub fn go_on<P: Copy, R: Runner<Point = P>>(
    walk: &mut Walk<P>,
    r: &R,
    b: u32,
) -> Result<Counts, Refusal>
    ensures walked { R.ready r.now → Tied (R.outcome r.now) (R.stands r.now) walk.old → Walked (R.outcome r.now) (R.stands r.now) walk.old b walk.new result }
    ensures went { Went (R.ready r.now) (R.outcome r.now) (R.stands r.now) walk.old b walk.new result }
{
    asked(walk, b)?;
    let answer = walk.advance(r, visits_of(walk, b));
    Ok(walk.counts(answer))
}
