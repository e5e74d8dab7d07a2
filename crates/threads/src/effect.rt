// What a statement comes to in a state, before anything is changed.
ghost use Rattle.std.specs.Prelude.{◌≡◌, if◌then◌else◌};
ghost use Rattle.tables.specs.Tables.{view};
ghost use Rattle.threads.specs.declared.effect.Effect.TheVariants.{Pass};
ghost use Rattle.threads.specs.Effects.{effect as said_effect, ended as has_ended, locking as lock_effect, unlocking as unlock_effect};

use kinds::Kind;
use records::statement::{Label, Mutex, Place, Statement, Thread};
use states::state::{MutexState, State};
use tables::table::Table;

// A statement that fails or blocks changes nothing. After the others the next statement is due, but after `GoTo`.
#[derive(Clone, Copy)]
pub enum Effect {
    Fail,
    Block,
    Pass,
    GoTo(Label),
    Write(Place, u32),
    Mark(Mutex, MutexState),
    Create(Thread),
}

// A thread has ended when its label is the number of its statements.
fn ended(state: &State, table: &Table, j: Thread) -> bool
    ensures { result ≡ has_ended (view table.now) state.now j.0 }
{
    j.0 < 8 && state.threads.label(j).0 == table.size(j)
}

// A statement passes if a condition holds.
fn pass_if(holds: bool, otherwise: Effect) -> Effect
    ensures { result ≡ (if holds then Pass else otherwise) }
{
    if holds { Effect::Pass } else { otherwise }
}

fn locking(state: &State, i: Thread, m: Mutex) -> Effect
    ensures { result ≡ lock_effect state.now i m }
{
    match state.mutex(m) {
        MutexState::Free => Effect::Mark(m, MutexState::Held(i)),
        MutexState::Destroyed => Effect::Fail,
        MutexState::Held(_) => Effect::Block,
    }
}

fn unlocking(state: &State, i: Thread, m: Mutex) -> Effect
    ensures { result ≡ unlock_effect state.now i m }
{
    match state.mutex(m) {
        MutexState::Held(j) if j == i => Effect::Mark(m, MutexState::Free),
        _ => Effect::Fail,
    }
}

// What the statement `s` of thread `i` comes to.
pub fn effect_of<V: Kind>(state: &State, table: &Table, i: Thread, s: Statement) -> Effect
    ensures { result ≡ said_effect V.meaning (view table.now) i state.now s }
{
    let value = |p: Place| state.value::<V>(i, p);
    match s {
        Statement::Set { d, c } => Effect::Write(d, c),
        Statement::Copy { d, a } => Effect::Write(d, value(a)),
        Statement::Sum { d, a, b } => Effect::Write(d, V::sum(value(a), value(b))),
        Statement::Difference { d, a, b } => Effect::Write(d, V::difference(value(a), value(b))),
        Statement::Less { d, a, b } => Effect::Write(d, V::less(value(a), value(b))),
        Statement::Same { d, a, b } => Effect::Write(d, V::same(value(a), value(b))),
        Statement::Jump { t } => Effect::GoTo(t),
        Statement::Branch { a, t } => pass_if(V::holds(value(a)), Effect::GoTo(t)),
        Statement::Assume { a } => pass_if(V::holds(value(a)), Effect::Block),
        Statement::Assert { a } => pass_if(V::holds(value(a)), Effect::Fail),
        Statement::Init { m } => Effect::Mark(m, MutexState::Free),
        Statement::Destroy { m } => Effect::Mark(m, MutexState::Destroyed),
        Statement::Lock { m } => locking(state, i, m),
        Statement::Unlock { m } => unlocking(state, i, m),
        Statement::Create { j } => Effect::Create(j),
        Statement::Join { j } => pass_if(ended(state, table, j), Effect::Block),
    }
}
