// Where the labels of a thread's section stand.
ghost use Rattle.std.specs.Prelude.{◌≡◌, ℕ, ◌+◌, ◌^◌, ◌<◌, ◌≤◌, length, slice_index};
ghost use Rattle.tables.specs.Program.{Program};
ghost use Rattle.sequences.specs.Code.{names as names_label, guarded as is_guarded, address_of};
ghost use Rattle.sequences.specs.Writes.{width as width_of, beyond};

use crate::instruction::Address;
use records::statement::{Label, Statement};

// Whether a statement is a jump to the label `t`. A bool by cases: this is asked of each statement for each label, and an
// Option that is compared took half as long again.
fn names(x: Statement, t: Label) -> bool
    ensures { result ≡ names_label t.0 x }
{
    match x {
        Statement::Jump { t: u } => u.0 == t.0,
        Statement::Branch { a: _, t: u } => u.0 == t.0,
        _ => false,
    }
}

// Whether the label `t` has a guard: some jump of the thread names it.
fn guarded(text: &[Statement], t: Label) -> bool
    ensures { result ≡ is_guarded text.now t.0 }
{
    text.iter().any(|x| names(*x, t))
}

// How many instructions a statement has.
fn width(x: Statement) -> u16
    ensures value { result ≡ width_of x }
    ensures few { result ≤ 3 }
{
    match x {
        Statement::Lock { m: _ } => 3,
        Statement::Unlock { m: _ } => 2,
        _ => 1,
    }
}

// The address behind the guard that a label may have at an address.
fn behind_guard(text: &[Statement], t: Label, at: u16) -> u16
    requires { at < 2 ^ 15 }
    ensures value { result ≡ beyond (is_guarded text.now t.0) at }
    ensures near { result ≤ at + 1 }
{
    if guarded(text, t) { at + 1 } else { at }
}

// A thread's statements, and where the guard of each label is to stand in its section.
#[derive(Drop)]
pub(crate) struct Layout<'a> {
    pub(crate) text: &'a [Statement],
    at: [u16; 256],
    ghost found: { (p : Program) (i t : ℕ) → t < 256 → slice_index at t ≡ address_of p i text.now t },
    ghost near: { (t : ℕ) → slice_index at t < 2 ^ 15 },
}

impl<'a> Layout<'a> {
    // Goes through the statements; all labels behind them have one address.
    pub(crate) fn new(text: &'a [Statement]) -> Layout<'a>
        requires { length text.now ≤ 255 }
        ensures { result.text.now ≡ text.now }
    {
        let mut at = [0; 256];
        let mut behind = 0;
        for (l, x) in text.iter().enumerate() {
            let end = behind + 1 + width(*x);
            at[l + 1] = end;
            behind = behind_guard(text, Label(l as u8 + 1), end);
        }
        at[text.len() + 1..].fill(behind);
        Layout { text, at }
    }

    // Where the guard of a label stands.
    pub(crate) fn address(&self, t: Label) -> Address
        ensures value { (p : Program) (i : ℕ) → result.0 ≡ address_of p i self.now.text.now t.0 }
        ensures near { result.0 < 2 ^ 15 }
    {
        Address(self.at[usize::from(t.0)])
    }

    pub(crate) fn guarded(&self, t: Label) -> bool
        ensures { result ≡ is_guarded self.now.text.now t.0 }
    {
        guarded(self.text, t)
    }

    // The address behind the guard that a label may have.
    pub(crate) fn behind(&self, t: Label) -> Address
        ensures { (p : Program) (i : ℕ) → result.0 ≡ beyond (is_guarded self.now.text.now t.0) (address_of p i self.now.text.now t.0) }
    {
        Address(behind_guard(self.text, t, self.address(t).0))
    }
}
