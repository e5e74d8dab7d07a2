// One number at a point: the slot that is due, and the way to the next one that exists.
ghost use Rattle.std.specs.Prelude.{◌≡◌, ◌+◌, ◌-◌, ◌*◌, ◌%◌, ◌<◌, ◌≤◌};
ghost use Rattle.reports.specs.Players.{with_point};
ghost use Rattle.threads.specs.Machines.{program, total};
ghost use Rattle.threads.specs.Plays.{bound as most, serve as served_so};
ghost use Rattle.threads.specs.Slots.{ran};
ghost use Rattle.threads.specs.Turns.{width, seek as first_existing, standing as stands_as, turn as turned_by, first as at_first};

use crate::machine::Machine;
use crate::point::Point;
use crate::slot::{Slot, run_slot};
use kinds::Kind;
use records::statement::Thread;
use reports::report::{SlotCount, Turn};
use reports::stop::Stop;
use states::state::State;
use walks::outcome::{Ending, Outcome};

impl<V: Kind> Machine<V> {
    // How many slots a run has.
    fn slots(&self) -> u8
        ensures value { result ≡ total self.now }
        ensures few { result ≤ 64 }
    {
        self.rounds * self.table.threads()
    }

    // The thread that has slot `q`. It is below 8 already: `min` tells the compiler, so that no question whether the state
    // has the thread is left when a slot runs.
    fn thread_at(&self, q: u8) -> Thread
        requires { q < total self.now }
        ensures { result.0 ≡ q % width (program self.now) }
    {
        Thread((q % self.table.threads()).min(7))
    }
}

impl<V: Kind> Machine<V> {
    // The most statements that thread `i` can carry out.
    fn bound(&self, state: &State, i: Thread) -> u8
        ensures { result ≡ most (program self.now) state.now i.0 }
    {
        self.table.size(i).saturating_sub(state.threads.label(i).0)
    }

    // Thread `i`'s slot with the number `n`.
    fn serve(&self, state: &mut State, i: Thread, n: SlotCount) -> Slot
        ensures { ran result state.new ≡ served_so V.meaning (program self.now) i.0 state.old n.0 }
    {
        if n.0 > self.bound(state, i) {
            return Slot {
                end: Err(Stop::Cut),
                count: SlotCount(0),
            };
        }
        run_slot::<V>(state, &self.table, i, n)
    }
}

impl<V: Kind> Machine<V> {
    // The first slot from `from` on whose thread is created, or the number of all slots.
    fn seek(&self, state: &State, from: u8) -> u8
        requires { from ≤ total self.now }
        ensures { result ≡ first_existing (program self.now) state.now (total self.now - from) from }
    {
        let slots = self.slots();
        (from..slots)
            .find(|q| state.threads.created(self.thread_at(*q)))
            .unwrap_or(slots)
    }

    // What a run comes to that stands at a point, with no number left.
    pub fn standing(&self, at: &Point) -> Outcome
        ensures { result ≡ stands_as (program self.now) (total self.now) at.now }
    {
        if at.slot < self.slots() {
            Outcome::Open(self.bound(&at.state, self.thread_at(at.slot)))
        } else {
            Outcome::Ended(Ending::Full)
        }
    }

    // The point before the first number.
    pub fn first(&self) -> Point
        ensures { result ≡ at_first V.meaning (program self.now) (total self.now) }
    {
        let state = State::start::<V>(&self.table);
        let slot = self.seek(&state, 0);
        Point { slot, state }
    }

    // Goes on from a point by one number.
    pub fn turn(&self, at: &mut Point, number: u8) -> Turn
        ensures { with_point result at.new ≡ turned_by V.meaning (program self.now) (total self.now) at.old number }
    {
        if at.slot >= self.slots() {
            return Turn::ended(SlotCount(0), Ending::Full);
        }
        let i = self.thread_at(at.slot);
        let slot = self.serve(&mut at.state, i, SlotCount(number));
        let outcome = match slot.end {
            Err(stop) => Outcome::Ended(stop.into()),
            Ok(()) => {
                at.slot = self.seek(&at.state, at.slot + 1);
                self.standing(at)
            }
        };
        Turn {
            count: slot.count,
            outcome,
        }
    }
}
