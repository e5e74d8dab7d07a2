// One statement of one thread.
ghost use Rattle.std.specs.Prelude.{◌≡◌, ◌<◌};
ghost use Rattle.states.specs.States.{label};
ghost use Rattle.tables.specs.Tables.{view};
ghost use Rattle.threads.specs.Effects.{next as due_effect};
ghost use Rattle.threads.specs.Steps.{progress as came_out, after as left_by};

use crate::effect::{Effect, effect_of};
use kinds::Kind;
use records::statement::{Label, Thread};
use reports::stop::Stop;
use states::state::State;
use tables::table::Table;

impl Effect {
    // Thread `i` does what its statement comes to. One that fails or blocks stops its slot.
    fn apply(self, state: &mut State, i: Thread) -> Result<(), Stop>
        requires { label state.old i.0 < 255 }
        ensures progress { result ≡ came_out self }
        ensures after { state.new ≡ left_by i self state.old }
    {
        let next = Label(state.threads.label(i).0 + 1);
        match self {
            Effect::Fail => return Err(Stop::Failed),
            Effect::Block => return Err(Stop::Cut),
            Effect::Pass => state.threads.go_to(i, next),
            Effect::GoTo(t) => state.threads.go_to(i, t),
            Effect::Write(d, c) => {
                state.put(i, d, c);
                state.threads.go_to(i, next);
            }
            Effect::Mark(m, to) => {
                state.set_mutex(m, to);
                state.threads.go_to(i, next);
            }
            Effect::Create(j) => {
                state.threads.create(j);
                state.threads.go_to(i, next);
            }
        }
        Ok(())
    }
}

// Thread `i` carries out the statement that is due, if it can. No method of `Machine`: the table alone is enough, and
// on a machine the name would hide `Runner::step`.
pub fn step<V: Kind>(state: &mut State, table: &Table, i: Thread) -> Result<(), Stop>
    ensures progress { result ≡ came_out (due_effect V.meaning (view table.now) i state.old) }
    ensures after { state.new ≡ left_by i (due_effect V.meaning (view table.now) i state.old) state.old }
{
    match table.statement(i, state.threads.label(i)) {
        None => Err(Stop::Cut),
        Some(s) => effect_of::<V>(state, table, i, s).apply(state, i),
    }
}
