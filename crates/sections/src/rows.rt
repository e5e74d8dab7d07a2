// The records of the sequential program's file.
ghost use Rattle.std.specs.Prelude.{◌≡◌, ◌*◌};
ghost use Rattle.tables.specs.Tables.{view};
ghost use Rattle.sections.specs.Rows.{instruction_row, section_row, program_row};

use crate::owner::Owner;
use kinds::Kind;
use records::row::Mark;
use sequences::instruction::Instruction;
use tables::table::Table;

// The IN record of an instruction.
pub fn instruction_row(x: Instruction) -> [u8; 10]
    ensures { result ≡ instruction_row x }
{
    match x {
        Instruction::Set { d, c } => Mark::In.row(1, u8::from(d), 0, 0, c),
        Instruction::Copy { d, a } => Mark::In.row(2, u8::from(d), u8::from(a), 0, 0),
        Instruction::Sum { d, a, b } => Mark::In.row(3, u8::from(d), u8::from(a), u8::from(b), 0),
        Instruction::Difference { d, a, b } => Mark::In.row(
            4,
            u8::from(d),
            u8::from(a),
            u8::from(b),
            0,
        ),
        Instruction::Less { d, a, b } => Mark::In.row(5, u8::from(d), u8::from(a), u8::from(b), 0),
        Instruction::Same { d, a, b } => Mark::In.row(6, u8::from(d), u8::from(a), u8::from(b), 0),
        Instruction::Jump { to } => Mark::In.row(7, 0, 0, 0, u32::from(to.0)),
        Instruction::Branch { a, to } => Mark::In.row(8, 0, u8::from(a), 0, u32::from(to.0)),
        Instruction::Assume { a } => Mark::In.row(9, 0, u8::from(a), 0, 0),
        Instruction::Assert { a } => Mark::In.row(10, 0, u8::from(a), 0, 0),
        Instruction::Hop { i, t, to } => Mark::In.row(32, i.0, 0, t.0, u32::from(to.0)),
        Instruction::Guard { t } => Mark::In.row(33, 0, 0, t.0, 0),
        Instruction::Return => Mark::In.row(34, 0, 0, 0, 0),
        Instruction::Must { w, v } => Mark::In.row(35, w.0, 0, v, 0),
        Instruction::MustNot { w, v } => Mark::In.row(36, w.0, 0, v, 0),
        Instruction::Need { w, v } => Mark::In.row(37, w.0, 0, v, 0),
        Instruction::Put { w, v } => Mark::In.row(38, w.0, 0, v, 0),
        Instruction::Slot { i, to } => Mark::In.row(39, i.0, 0, 0, u32::from(to.0)),
        Instruction::Guess { i, n } => Mark::In.row(40, i.0, 0, n, 0),
        Instruction::Call { i } => Mark::In.row(41, i.0, 0, 0, 0),
        Instruction::Save { i } => Mark::In.row(42, i.0, 0, 0, 0),
        Instruction::End => Mark::In.row(43, 0, 0, 0, 0),
    }
}

// The SE record of a section with so many instructions.
pub fn section_row(owner: Owner, count: u32) -> [u8; 10]
    ensures { result ≡ section_row owner count }
{
    match owner {
        Owner::Driver => Mark::Se.row(255, 0, 0, 0, count),
        Owner::Thread { i, locals } => Mark::Se.row(i.0, locals, 0, 0, count),
    }
}

// The SQ record. The rounds are the highest byte of c.
pub fn program_row<V: Kind>(table: &Table, rounds: u8) -> [u8; 10]
    ensures { result ≡ program_row V.meaning.byte (view table.now) rounds }
{
    Mark::Sq.row(
        V::kind_byte(),
        table.cells().len() as u8,
        table.mutexes(),
        table.threads(),
        16777216 * u32::from(rounds),
    )
}
