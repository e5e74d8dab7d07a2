// Survey: the next schedules.
ghost use Rattle.std.specs.Prelude.{◌≡◌};
ghost use Rattle.jobs.specs.Keeps.{KeepsSession};
ghost use Rattle.jobs.specs.Models.{Model, next, survey, survey_reply};
ghost use Rattle.jobs.specs.Sessions.{held, Surveyed};

use crate::job::Stage;
use crate::session::Session;
use kinds::Kind;
use records::refusal::Refusal;
use reports::walking::go_on;
use walks::counts::Counts;

impl<V: Kind> Session<V> {
    // Survey: the next `b` schedules, or those left. A refusal leaves the session as it was.
    pub fn survey(&mut self, b: u32) -> Result<Counts, Refusal>
        ensures held { held self.new ≡ held self.old }
        ensures says { Surveyed V.meaning self.old self.new b result }
        ensures goes { (m : Model) → KeepsSession V.meaning self.old m → (result ≡ survey_reply V.meaning m b) × KeepsSession V.meaning self.new (next V.meaning m (survey b)) }
    {
        match self.stage {
            Stage::Empty | Stage::Loaded => Err(Refusal::NotTranslated),
            Stage::Translated => go_on(&mut self.survey, &self.machine, b),
        }
    }
}
