// The body of a record: the eight bytes behind its mark.
ghost use Rattle.std.specs.Prelude.{◌≡◌};
ghost use Rattle.records.specs.Bodies.{c as word_of, unused as blanks, fields as used_by, stores, tests, controls, statement as said};

use crate::refusal::{RecordError, Refusal, require};
use crate::statement::{Label, Mutex, Place, Statement, Thread};

// op, d, a, b and the four bytes of c.
pub type Body = [u8; 8];

// Which fields behind op a record uses.
#[derive(Clone, Copy)]
pub struct Used {
    pub d: bool,
    pub a: bool,
    pub b: bool,
    pub c: bool,
}

// The four bytes of c, highest first.
pub fn word(body: &Body) -> u32
    ensures { result ≡ word_of body.now }
{
    u32::from_be_bytes([body[4], body[5], body[6], body[7]])
}

// Are the unused bytes zero?
pub fn unused(body: &Body, used: Used) -> Result<(), RecordError>
    ensures { result ≡ blanks used body.now }
{
    require(used.d || body[1] == 0, Refusal::Unused, 3)?;
    require(used.a || body[2] == 0, Refusal::Unused, 4)?;
    require(used.b || body[3] == 0, Refusal::Unused, 5)?;
    require(used.c || body[4] == 0, Refusal::Unused, 6)?;
    require(used.c || body[5] == 0, Refusal::Unused, 7)?;
    require(used.c || body[6] == 0, Refusal::Unused, 8)?;
    require(used.c || body[7] == 0, Refusal::Unused, 9)
}

// The fields that the statement of an op uses.
pub fn fields(op: u8) -> Used
    ensures { result ≡ used_by op }
{
    Used {
        d: 1 <= op && op <= 6 || 11 <= op,
        a: 2 <= op && op <= 6 || 8 <= op && op <= 10,
        b: 3 <= op && op <= 6,
        c: op == 1 || 7 <= op && op <= 8,
    }
}

// Ops 1 to 6.
fn store(body: &Body) -> Statement
    ensures { result ≡ stores body.now }
{
    let d = Place::from(body[1]);
    let a = Place::from(body[2]);
    let b = Place::from(body[3]);
    match body[0] {
        1 => Statement::Set { d, c: word(body) },
        2 => Statement::Copy { d, a },
        3 => Statement::Sum { d, a, b },
        4 => Statement::Difference { d, a, b },
        5 => Statement::Less { d, a, b },
        _ => Statement::Same { d, a, b },
    }
}

// Ops 7 to 10. A label is the lowest byte of c: the questions see to it that the others are zero.
fn test(body: &Body) -> Statement
    ensures { result ≡ tests body.now }
{
    let a = Place::from(body[2]);
    let t = Label(body[7]);
    match body[0] {
        7 => Statement::Jump { t },
        8 => Statement::Branch { a, t },
        9 => Statement::Assume { a },
        _ => Statement::Assert { a },
    }
}

// Ops 11 to 16.
fn control(body: &Body) -> Statement
    ensures { result ≡ controls body.now }
{
    let m = Mutex(body[1]);
    let j = Thread(body[1]);
    match body[0] {
        11 => Statement::Init { m },
        12 => Statement::Destroy { m },
        13 => Statement::Lock { m },
        14 => Statement::Unlock { m },
        15 => Statement::Create { j },
        _ => Statement::Join { j },
    }
}

// The statement that the body of an ST record says.
pub fn statement(body: &Body) -> Statement
    ensures { result ≡ said body.now }
{
    match body[0] {
        0..=6 => store(body),
        7..=10 => test(body),
        _ => control(body),
    }
}
