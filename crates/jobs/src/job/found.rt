// Found: the latest failing guess list that Walk has visited, beside its schedule.
ghost use Rattle.std.specs.Prelude.{◌≡◌, ◌≤◌, length};
ghost use Rattle.reports.specs.Reports.{front};
ghost use Rattle.sequences.specs.Sequences.{drives_so};
ghost use Rattle.walks.specs.Tallies.{latest_list};
ghost use Rattle.jobs.specs.Keeps.{Keeps};
ghost use Rattle.jobs.specs.Models.{Model, shown, shown_as, found_reply};

use crate::job::{Job, Stage};
use kinds::Kind;
use records::refusal::Refusal;

impl<V: Kind> Job<V> {
    // The slot counts of a guess list: its schedule.
    fn schedule_of(&self, guesses: &[u8], schedule: &mut [u8])
        requires few { length guesses.now ≤ 64 }
        requires room { length guesses.now ≤ length schedule.old }
        ensures { schedule.new ≡ front (drives_so V.meaning self.now.sequential.sequence guesses.now).counts schedule.old }
    {
        let sequence = &self.sequential.sequence;
        let mut cells = [0; 16];
        let own = sequence.cells().len();
        let _ = sequence.drive(guesses, schedule, &mut cells[0..own]);
    }

    // Writes the latest list and its schedule, if there is room for both.
    fn tell(&self, guesses: &mut [u8], schedule: &mut [u8]) -> Result<usize, Refusal>
        ensures { shown_as result guesses.new schedule.new ≡ shown (latest_list self.now.walk.tally) (drives_so V.meaning self.now.sequential.sequence (latest_list self.now.walk.tally)).counts guesses.old schedule.old }
    {
        let latest = self.walk.latest();
        let n = latest.len();
        if guesses.len() < n || schedule.len() < n {
            return Err(Refusal::BufferShort);
        }
        self.schedule_of(latest, schedule);
        guesses[0..n].copy_from_slice(latest);
        Ok(n)
    }

    // Found: its length, and both lists at the front of the two buffers.
    pub fn found(&self, guesses: &mut [u8], schedule: &mut [u8]) -> Result<usize, Refusal>
        ensures { (m : Model) → Keeps V.meaning self.now m → shown_as result guesses.new schedule.new ≡ found_reply V.meaning m guesses.old schedule.old }
    {
        match self.session.stage {
            Stage::Empty | Stage::Loaded => Err(Refusal::NotTranslated),
            Stage::Translated => match self.walk.found() {
                None => Err(Refusal::NothingFound),
                Some(_) => self.tell(guesses, schedule),
            },
        }
    }
}
