// The translation: the section of a thread, and the driver.
ghost use Rattle.std.specs.Prelude.{◌≡◌, ◌*◌, ◌%◌, ◌<◌, ◌≤◌, ◌++◌, length, take};
ghost use Rattle.std.specs.List.{AllByRecursion};
ghost use Rattle.tables.specs.Program.{own};
ghost use Rattle.tables.specs.Slots.{slot_total};
ghost use Rattle.tables.specs.Tables.{view};
ghost use Rattle.sequences.specs.Code.{inner, guards, guarded as is_guarded, address_in, section as section_code, driver as driver_code};
ghost use Rattle.sequences.specs.Writes.{Low, hop_code, label_code, slot_code};

use crate::instruction::{Address, Instruction, Word};
use crate::labels::Layout;
use crate::sequence::{Driver, Sections};
use records::statement::{Label, Statement, Thread};
use tables::table::Table;

// Thread `i` of a table, with the layout of its section.
#[derive(Drop)]
struct Writer<'a> {
    table: &'a Table,
    i: Thread,
    layout: Layout<'a>,
    ghost thread: { i.0 < 8 },
    ghost text: { layout.text.now ≡ own (view table.now) i.0 },
}

impl<'a> Writer<'a> {
    // The HOP of the label `l`: it leads behind the next label's guard.
    fn hop(&self, l: u8) -> Instruction
        requires { l < 255 }
        ensures { result ≡ hop_code self.now.i.0 (own (view self.now.table.now) self.now.i.0) (address_in (view self.now.table.now) self.now.i.0) l }
    {
        Instruction::Hop {
            i: self.i,
            t: Label(l),
            to: self.layout.behind(Label(l + 1)),
        }
    }

    // The instructions of a statement.
    fn write_statement(&self, code: &mut Sections, x: Statement)
        ensures { Low x → code.new ≡ take 1936 (code.old ++ inner (view self.now.table.now) self.now.i.0 (address_in (view self.now.table.now) self.now.i.0) x) }
    {
        match x {
            Statement::Set { d, c } => code.push(Instruction::Set { d, c }),
            Statement::Copy { d, a } => code.push(Instruction::Copy { d, a }),
            Statement::Sum { d, a, b } => code.push(Instruction::Sum { d, a, b }),
            Statement::Difference { d, a, b } => code.push(Instruction::Difference { d, a, b }),
            Statement::Less { d, a, b } => code.push(Instruction::Less { d, a, b }),
            Statement::Same { d, a, b } => code.push(Instruction::Same { d, a, b }),
            Statement::Jump { t } => code.push(Instruction::Jump {
                to: self.layout.address(t),
            }),
            Statement::Branch { a, t } => code.push(Instruction::Branch {
                a,
                to: self.layout.address(t),
            }),
            Statement::Assume { a } => code.push(Instruction::Assume { a }),
            Statement::Assert { a } => code.push(Instruction::Assert { a }),
            Statement::Init { m } => code.push(Instruction::Put {
                w: Word::lock(m),
                v: 0,
            }),
            Statement::Destroy { m } => code.push(Instruction::Put {
                w: Word::lock(m),
                v: 1,
            }),
            Statement::Lock { m } => {
                let w = Word::lock(m);
                code.extend_from_slice(&[
                    Instruction::MustNot { w, v: 1 },
                    Instruction::Need { w, v: 0 },
                    Instruction::Put { w, v: 2 + self.i.0 },
                ]);
            }
            Statement::Unlock { m } => {
                let w = Word::lock(m);
                code.extend_from_slice(&[
                    Instruction::Must { w, v: 2 + self.i.0 },
                    Instruction::Put { w, v: 0 },
                ]);
            }
            Statement::Create { j } => code.push(Instruction::Put {
                w: Word::active(j),
                v: 1,
            }),
            Statement::Join { j } => code.push(Instruction::Need {
                w: Word::saved(j),
                v: self.table.size(j),
            }),
        }
    }

    // The guard of a label, if it has one.
    fn write_guard(&self, code: &mut Sections, t: Label)
        ensures { code.new ≡ take 1936 (code.old ++ guards (is_guarded self.now.layout.text.now t.0) t.0) }
    {
        // Without a guard the code stays as it is, and `len` alone says that it fits.
        let _few = code.len();
        if self.layout.guarded(t) {
            code.push(Instruction::Guard { t });
        }
    }

    // The label `l`, whose statement is `x`, with the guard of the next label, if that has one.
    fn write_label(&self, code: &mut Sections, l: u8, x: Statement)
        requires { l < 255 }
        ensures { Low x → code.new ≡ take 1936 (code.old ++ label_code (view self.now.table.now) self.now.i.0 (own (view self.now.table.now) self.now.i.0) (address_in (view self.now.table.now) self.now.i.0) l x) }
    {
        code.push(self.hop(l));
        self.write_statement(code, x);
        self.write_guard(code, Label(l + 1));
    }
}

// Thread `i`'s section.
pub(crate) fn write_section(code: &mut Sections, table: &Table, i: Thread)
    requires { i.0 < 8 }
    ensures { AllByRecursion Low (own (view table.now) i.0) → code.new ≡ take 1936 (code.old ++ section_code (view table.now) i.0) }
{
    let text = table.statements_of(i);
    let writer = Writer {
        table,
        i,
        layout: Layout::new(text),
    };
    for (l, x) in text.iter().enumerate() {
        writer.write_label(code, l as u8, *x);
    }
    code.push(Instruction::Return);
}

// Thread `i`'s slot, at an address of the driver.
fn write_slot(driver: &mut Driver, table: &Table, i: Thread, at: u16)
    requires { at ≤ 8192 }
    ensures { driver.new ≡ take 257 (driver.old ++ slot_code (view table.now) i.0 at) }
{
    driver.extend_from_slice(&[
        Instruction::Slot {
            i,
            to: Address(4 + at),
        },
        Instruction::Guess {
            i,
            n: table.size(i),
        },
        Instruction::Call { i },
        Instruction::Save { i },
    ]);
}

// How many slots so many rounds have.
fn slots(table: &Table, rounds: u8) -> u16
    ensures value { result ≡ slot_total (view table.now) rounds }
    ensures few { result ≤ 8 * rounds }
{
    u16::from(rounds) * u16::from(table.threads())
}

// The thread that has slot `q`.
fn thread_at(table: &Table, q: u16) -> Thread
    requires { 0 < length (view table.now).texts }
    ensures { result.0 ≡ q % length (view table.now).texts }
{
    Thread((q % u16::from(table.threads())) as u8)
}

// The driver of so many rounds.
pub(crate) fn write_driver(driver: &mut Driver, table: &Table, rounds: u8)
    ensures value { driver.new ≡ take 257 (driver.old ++ driver_code (view table.now) rounds) }
    ensures fits { rounds ≤ 8 → length (driver_code (view table.now) rounds) ≤ 257 }
{
    for q in 0..slots(table, rounds) {
        write_slot(driver, table, thread_at(table, q), 4 * q);
    }
    driver.push(Instruction::End);
}
