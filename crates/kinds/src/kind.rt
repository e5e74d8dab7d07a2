// The trait of a kind of value.
ghost use Rattle.std.specs.Prelude.{◌≡◌};
ghost use Rattle.kinds.specs.Meaning.{Meaning, Lawful};

// A kind says which codes are lawful, and gives four functions of two codes and a test of one. Each answers for any
// codes. `meaning` says what each answers, and `closed` is the law that a kind keeps.
pub trait Kind {
    // The byte by which a program file names the kind.
    const BYTE: u8;

    // What a local cell holds at the start of a run.
    const FRESH: u32;

    ghost meaning: { Meaning };

    // `BYTE` and `FRESH` for generic code: a contract cannot speak of the constant of a type parameter, but of these.
    fn kind_byte() -> u8
        ensures { result ≡ meaning.byte };

    fn fresh_code() -> u32
        ensures { result ≡ meaning.fresh };

    fn sum(a: u32, b: u32) -> u32
        ensures { result ≡ meaning.sum a b };

    fn difference(a: u32, b: u32) -> u32
        ensures { result ≡ meaning.difference a b };

    fn less(a: u32, b: u32) -> u32
        ensures { result ≡ meaning.less a b };

    fn same(a: u32, b: u32) -> u32
        ensures { result ≡ meaning.same a b };

    fn holds(a: u32) -> bool
        ensures { result ≡ meaning.holds a };

    fn lawful(c: u32) -> bool
        ensures { result ≡ meaning.lawful c };

    ghost closed: { Lawful meaning };
}
