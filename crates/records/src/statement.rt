// What a thread can be told to do.
ghost use Rattle.std.specs.Prelude.{◌≡◌};
ghost use Rattle.records.specs.Bodies.{place_at};
ghost use Rattle.records.specs.Rows.{place_byte};

// A cell, by its number: shared by all threads, or the thread's own.
#[derive(Clone, Copy, PartialEq, Eq)]
pub enum Place {
    Shared(u8),
    Local(u8),
}

// Places 0 to 15 are the shared cells, and those from 16 on the local ones.
impl From<u8> for Place {
    ghost from_gives = { λ b p. p ≡ place_at b };

    fn from(byte: u8) -> Place {
        if byte < 16 {
            Place::Shared(byte)
        } else {
            Place::Local(byte - 16)
        }
    }
}

// No table that was loaded has a local cell above 7; the sum wraps so that the byte is defined for every place.
impl From<Place> for u8 {
    ghost from_gives = { λ p b. b ≡ place_byte p };

    fn from(p: Place) -> u8 {
        match p {
            Place::Shared(n) => n,
            Place::Local(n) => n.wrapping_add(16),
        }
    }
}

// A place in a thread's text: the number of the statement that is due there.
#[derive(Clone, Copy, PartialEq, Eq)]
pub struct Label(pub u8);

// A mutex, by its number.
#[derive(Clone, Copy, PartialEq, Eq)]
pub struct Mutex(pub u8);

// A thread, by its number.
#[derive(Clone, Copy, PartialEq, Eq)]
pub struct Thread(pub u8);

// The sixteen statements. `d` is written, `a` and `b` are read, `t` is gone to.
#[derive(Clone, Copy, PartialEq, Eq)]
pub enum Statement {
    Set { d: Place, c: u32 },
    Copy { d: Place, a: Place },
    Sum { d: Place, a: Place, b: Place },
    Difference { d: Place, a: Place, b: Place },
    Less { d: Place, a: Place, b: Place },
    Same { d: Place, a: Place, b: Place },
    Jump { t: Label },
    Branch { a: Place, t: Label },
    Assume { a: Place },
    Assert { a: Place },
    Init { m: Mutex },
    Destroy { m: Mutex },
    Lock { m: Mutex },
    Unlock { m: Mutex },
    Create { j: Thread },
    Join { j: Thread },
}
