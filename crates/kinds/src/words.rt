// Words: numbers of 32 bits.
ghost use Rattle.kinds.specs.Words.{words};
ghost use Rattle.std.proofs.Common.{rules};

use crate::kind::Kind;

#[derive(Clone, Copy)]
pub struct Words;

impl Kind for Words {
    const BYTE: u8 = 1;

    const FRESH: u32 = 0;

    ghost meaning = { words };

    ghost closed = { Prim.search rules };

    fn kind_byte() -> u8 {
        Self::BYTE
    }

    fn fresh_code() -> u32 {
        Self::FRESH
    }

    fn sum(a: u32, b: u32) -> u32 {
        a.wrapping_add(b)
    }

    fn difference(a: u32, b: u32) -> u32 {
        a.wrapping_sub(b)
    }

    // Adding 2^31 turns the order of two's complement numbers into that of unsigned ones.
    fn less(a: u32, b: u32) -> u32 {
        (a.wrapping_add(0x8000_0000) < b.wrapping_add(0x8000_0000)) as u32
    }

    fn same(a: u32, b: u32) -> u32 {
        (a == b) as u32
    }

    fn holds(a: u32) -> bool {
        a != 0
    }

    fn lawful(_c: u32) -> bool {
        true
    }
}
