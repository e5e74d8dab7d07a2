// The bytes of a record.
ghost use Rattle.std.specs.Prelude.{◌≡◌, ◌+◌, ◌≤◌, length};
ghost use Rattle.records.specs.Rows.{letters, row as ten, marked, statement_row};
ghost use Rattle.records.specs.Wrote.{wrote, room_for as has_room};

use crate::refusal::Refusal;
use crate::statement::Statement;

// A record: the two bytes of its mark, op, d, a, b and c.
pub fn row(p: u8, q: u8, op: u8, d: u8, a: u8, b: u8, c: u32) -> [u8; 10]
    ensures { result ≡ ten p q op d a b c }
{
    let [s, t, u, v] = c.to_be_bytes();
    [p, q, op, d, a, b, s, t, u, v]
}

// The two letters that a record begins with. The last three are those of a sequential program's file.
#[derive(Clone, Copy, PartialEq, Eq)]
pub enum Mark {
    Pg,
    Sc,
    Th,
    St,
    Sq,
    Se,
    In,
}

impl Mark {
    fn letters(self) -> [u8; 2]
        ensures { result ≡ letters self }
    {
        match self {
            Mark::Pg => [b'P', b'G'],
            Mark::Sc => [b'S', b'C'],
            Mark::Th => [b'T', b'H'],
            Mark::St => [b'S', b'T'],
            Mark::Sq => [b'S', b'Q'],
            Mark::Se => [b'S', b'E'],
            Mark::In => [b'I', b'N'],
        }
    }

    // A record with this mark: op, d, a, b and c.
    pub fn row(self, op: u8, d: u8, a: u8, b: u8, c: u32) -> [u8; 10]
        ensures { result ≡ marked self op d a b c }
    {
        let [p, q] = self.letters();
        row(p, q, op, d, a, b, c)
    }
}

// The ST record of a statement.
pub fn statement_row(s: Statement) -> [u8; 10]
    ensures { result ≡ statement_row s }
{
    match s {
        Statement::Set { d, c } => Mark::St.row(1, u8::from(d), 0, 0, c),
        Statement::Copy { d, a } => Mark::St.row(2, u8::from(d), u8::from(a), 0, 0),
        Statement::Sum { d, a, b } => Mark::St.row(3, u8::from(d), u8::from(a), u8::from(b), 0),
        Statement::Difference { d, a, b } => Mark::St.row(
            4,
            u8::from(d),
            u8::from(a),
            u8::from(b),
            0,
        ),
        Statement::Less { d, a, b } => Mark::St.row(5, u8::from(d), u8::from(a), u8::from(b), 0),
        Statement::Same { d, a, b } => Mark::St.row(6, u8::from(d), u8::from(a), u8::from(b), 0),
        Statement::Jump { t } => Mark::St.row(7, 0, 0, 0, u32::from(t.0)),
        Statement::Branch { a, t } => Mark::St.row(8, 0, u8::from(a), 0, u32::from(t.0)),
        Statement::Assume { a } => Mark::St.row(9, 0, u8::from(a), 0, 0),
        Statement::Assert { a } => Mark::St.row(10, 0, u8::from(a), 0, 0),
        Statement::Init { m } => Mark::St.row(11, m.0, 0, 0, 0),
        Statement::Destroy { m } => Mark::St.row(12, m.0, 0, 0, 0),
        Statement::Lock { m } => Mark::St.row(13, m.0, 0, 0, 0),
        Statement::Unlock { m } => Mark::St.row(14, m.0, 0, 0, 0),
        Statement::Create { j } => Mark::St.row(15, j.0, 0, 0, 0),
        Statement::Join { j } => Mark::St.row(16, j.0, 0, 0, 0),
    }
}

// Writes a record at a place of the buffer, and says where the next one goes.
pub fn put(out: &mut [u8], at: usize, r: [u8; 10]) -> usize
    requires { at + 10 ≤ length out.old }
    ensures after { out.new ≡ wrote out.old at r }
    ensures next { result ≡ at + 10 }
{
    out[at..at + 10].copy_from_slice(&r);
    at + 10
}

// Whether a buffer has room for so many items.
pub fn room_for<T>(out: &[T], n: usize) -> Result<(), Refusal>
    ensures { result ≡ has_room n (length out.now) }
{
    if out.len() < n {
        return Err(Refusal::BufferShort);
    }
    Ok(())
}
