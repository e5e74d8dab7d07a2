// The run of a section.
ghost use Rattle.std.specs.Prelude.{◌≡◌, ◌^◌, ◌<◌, ◌≤◌, length};
ghost use Rattle.sequences.specs.Acts.{call};
ghost use Rattle.sequences.specs.Passages.{performed, counts as counted, passage, tally as tallied, with_state};

use crate::act::{Act, act_of};
use crate::instruction::Instruction;
use crate::state::SeqState;
use kinds::Kind;
use records::statement::Thread;
use reports::stop::Stop;
use std::ops::ControlFlow;

// How a section's run ended, and how many statements were carried out in it. A failing one counts, a blocking one does
// not.
#[derive(Clone, Copy)]
pub struct Section {
    pub end: Result<(), Stop>,
    pub count: u8,
}

// Thread `i` does what an instruction comes to.
fn perform(state: &mut SeqState, i: Thread, act: Act)
    ensures { state.new ≡ performed state.old i.0 act }
{
    match act {
        Act::Write(p, c) => state.put(i, p, c),
        Act::Mark(w, v) => state.set_word(w.into(), v),
        _ => (),
    }
}

// Whether a statement was carried out.
fn counts(act: Act) -> bool
    ensures { result ≡ counted act }
{
    match act {
        Act::On(counts) => counts,
        Act::To(counts, _) => counts,
        Act::Write(_, _) | Act::Mark(_, _) | Act::Fail => true,
        Act::Back | Act::Stop => false,
    }
}

// Where a section goes on behind the instruction at an address, or how it ends.
fn behind(at: usize, act: Act) -> ControlFlow<Result<(), Stop>, usize>
    requires { at < 2 ^ 32 }
    ensures { result ≡ passage at act }
{
    match act {
        Act::On(_) | Act::Write(_, _) | Act::Mark(_, _) => ControlFlow::Continue(at + 1),
        Act::To(_, to) => ControlFlow::Continue(usize::from(to.0)),
        Act::Back => ControlFlow::Break(Ok(())),
        Act::Fail => ControlFlow::Break(Err(Stop::Failed)),
        Act::Stop => ControlFlow::Break(Err(Stop::Cut)),
    }
}

// One statement more, if it was carried out.
fn tally(counts: bool, d: u8) -> u8
    requires { d < 255 }
    ensures { result ≡ tallied counts d }
{
    if counts { d + 1 } else { d }
}

// Thread `i` runs its section.
pub(crate) fn call_section<V: Kind>(
    state: &mut SeqState,
    i: Thread,
    code: &[Instruction],
) -> Section
    requires { length code.now ≤ 255 }
    ensures { with_state result state.new ≡ call V.meaning i.0 code.now state.old }
{
    let mut at = 0;
    let mut count = 0;
    // Steps are counted so that the loop ends whatever the section is.
    for _step in 0..code.len() {
        if at >= code.len() {
            break;
        }
        let act = act_of::<V>(state, i, code[at]);
        perform(state, i, act);
        count = tally(counts(act), count);
        match behind(at, act) {
            ControlFlow::Continue(to) => at = to,
            ControlFlow::Break(end) => return Section { end, count },
        }
    }
    Section {
        end: Err(Stop::Cut),
        count,
    }
}
