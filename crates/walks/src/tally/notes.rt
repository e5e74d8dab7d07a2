// A tally counts a leaf, and says what was counted.
ghost use Rattle.std.specs.Prelude.{◌≡◌, ◌+◌, ◌^◌, ◌<◌, ◌≤◌, length};
ghost use Rattle.walks.specs.Paths.{levels};
ghost use Rattle.walks.specs.Tallies.{visited, tallied, noted, nothing, latest_list, place};

use crate::cursor::Cursor;
use crate::found::Found;
use crate::outcome::Ending;
use crate::tally::{Latest, Tally};

impl Tally {
    pub fn new() -> Tally
        ensures { tallied result ≡ nothing }
    {
        Tally {
            failed: 0,
            cut: 0,
            full: 0,
            latest: None,
        }
    }

    // Every leaf ends in one of three ways.
    pub fn visited(&self) -> u32
        ensures { result ≡ visited self.now }
    {
        self.failed + self.cut + self.full
    }

    // Counts a leaf, the list of a cursor.
    pub fn note<P: Copy>(&mut self, ending: Ending, cursor: &Cursor<P>)
        requires { visited self.old + 1 < 2 ^ 32 }
        ensures { tallied self.new ≡ noted self.old ending (levels cursor.now) }
    {
        match ending {
            Ending::Failed => {
                let position = self.visited() + 1;
                self.failed += 1;
                self.latest = Some(Latest {
                    numbers: cursor.numbers,
                    depth: cursor.depth,
                    position,
                });
            }
            Ending::Cut => self.cut += 1,
            Ending::Full => self.full += 1,
        }
    }

    // The list that was found last, but its numbers.
    pub fn found(&self) -> Option<Found>
        ensures { result ≡ place self.now.latest }
    {
        match &self.latest {
            None => None,
            Some(latest) => Some(Found {
                length: latest.depth as u8,
                position: latest.position,
            }),
        }
    }

    // The numbers of the list that was found last, and none before one is.
    pub fn latest(&self) -> &[u8]
        ensures value { result.now ≡ latest_list self.now }
        ensures few { length result.now ≤ 64 }
    {
        match &self.latest {
            None => &[],
            Some(latest) => &latest.numbers[..latest.depth],
        }
    }
}
