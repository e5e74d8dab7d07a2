// What a walk has counted.
ghost use Rattle.std.specs.Prelude.{◌≡◌, ◌≤◌, length};
ghost use Rattle.walks.specs.Counts.{tally_counts};
ghost use Rattle.walks.specs.Tallies.{visited, latest_list, place};

use crate::counts::Counts;
use crate::found::Found;
use crate::walk::{Answer, Walk};

impl<P: Copy> Walk<P> {
    pub fn visited(&self) -> u32
        ensures { result ≡ visited self.now.tally }
    {
        self.tally.visited()
    }

    pub fn failed(&self) -> u32
        ensures { result ≡ self.now.tally.failed }
    {
        self.tally.failed
    }

    pub fn cut(&self) -> u32
        ensures { result ≡ self.now.tally.cut }
    {
        self.tally.cut
    }

    pub fn full(&self) -> u32
        ensures { result ≡ self.now.tally.full }
    {
        self.tally.full
    }

    // All of these, beside what a call answered.
    pub fn counts(&self, answer: Answer) -> Counts
        ensures { result ≡ tally_counts answer self.now.tally }
    {
        Counts {
            answer,
            visited: self.visited(),
            failed: self.failed(),
            cut: self.cut(),
            full: self.full(),
        }
    }

    // The latest failing list, but its numbers.
    pub fn found(&self) -> Option<Found>
        ensures { result ≡ place self.now.tally.latest }
    {
        self.tally.found()
    }

    // The numbers of the latest failing list, and none before there is one.
    pub fn latest(&self) -> &[u8]
        ensures value { result.now ≡ latest_list self.now.tally }
        ensures few { length result.now ≤ 64 }
    {
        self.tally.latest()
    }
}
