// Truth values: the lowest bit of a code.
ghost use Rattle.kinds.specs.Truth.{truth};
ghost use Rattle.std.proofs.Common.{rules};

use crate::kind::Kind;

#[derive(Clone, Copy)]
pub struct Truth;

impl Kind for Truth {
    const BYTE: u8 = 2;

    const FRESH: u32 = 0;

    ghost meaning = { truth };

    ghost closed = { Prim.search rules };

    fn kind_byte() -> u8 {
        Self::BYTE
    }

    fn fresh_code() -> u32 {
        Self::FRESH
    }

    // a or b
    fn sum(a: u32, b: u32) -> u32 {
        (a % 2 == 1 || b % 2 == 1) as u32
    }

    // a and not b
    fn difference(a: u32, b: u32) -> u32 {
        (a % 2 == 1 && b % 2 != 1) as u32
    }

    // b and not a
    fn less(a: u32, b: u32) -> u32 {
        (b % 2 == 1 && a % 2 != 1) as u32
    }

    fn same(a: u32, b: u32) -> u32 {
        (a % 2 == b % 2) as u32
    }

    fn holds(a: u32) -> bool {
        a % 2 == 1
    }

    fn lawful(c: u32) -> bool {
        c < 2
    }
}
