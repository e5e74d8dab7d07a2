// Walk and Survey: the next leaves of each machine.
ghost use Rattle.std.specs.Prelude.{◌≡◌};
ghost use Rattle.jobs.specs.Keeps.{Keeps};
ghost use Rattle.jobs.specs.Models.{Model, next, walk, survey, walk_reply, survey_reply};

use crate::job::{Job, Stage};
use kinds::Kind;
use records::refusal::Refusal;
use reports::walking::go_on;
use walks::counts::Counts;

impl<V: Kind> Job<V> {
    // Walk: the next `b` guess lists, or those left. A refusal leaves the job as it was.
    pub fn walk(&mut self, b: u32) -> Result<Counts, Refusal>
        ensures { (m : Model) → Keeps V.meaning self.old m → (result ≡ walk_reply V.meaning m b) × Keeps V.meaning self.new (next V.meaning m (walk b)) }
    {
        match self.session.stage {
            Stage::Empty | Stage::Loaded => Err(Refusal::NotTranslated),
            Stage::Translated => go_on(&mut self.walk, &self.sequential, b),
        }
    }

    // Survey: the next `b` schedules, or those left. A refusal leaves the job as it was.
    pub fn survey(&mut self, b: u32) -> Result<Counts, Refusal>
        ensures { (m : Model) → Keeps V.meaning self.old m → (result ≡ survey_reply V.meaning m b) × Keeps V.meaning self.new (next V.meaning m (survey b)) }
    {
        self.session.survey(b)
    }
}
