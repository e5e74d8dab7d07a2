// Why a call is refused, and where in a file.
ghost use Rattle.std.specs.Prelude.{◌≡◌};
ghost use Rattle.records.specs.Numbers.{number};
ghost use Rattle.records.specs.Verdict.{asked, fine, located};

// The numbers are those by which formats and programs name a refusal. The tens digit is the layer that refuses.
#[derive(Clone, Copy, PartialEq, Eq)]
pub enum Refusal {
    // the file as a whole
    Length = 11,
    Mark = 12,
    Missing = 13,
    Trailing = 14,
    // the layout of a record
    KindByte = 21,
    Counts = 22,
    Index = 23,
    ThreadSize = 24,
    Unused = 25,
    // what a record says
    Operation = 31,
    Place = 32,
    Code = 33,
    Target = 34,
    Mutex = 35,
    Thread = 36,
    CreatedTwice = 37,
    // a call that comes too early, or whose arguments are outside their limits
    NotLoaded = 41,
    Rounds = 42,
    NotTranslated = 43,
    Budget = 44,
    LeafLimit = 45,
    ListLength = 46,
    BufferShort = 47,
    NothingFound = 48,
}

// A refusal in one record, with the byte of the record at which the first bad field starts.
#[derive(Clone, Copy, PartialEq, Eq)]
pub struct RecordError {
    pub refusal: Refusal,
    pub byte: u8,
}

// A refusal in a file: the record, and the byte in it.
#[derive(Clone, Copy, PartialEq, Eq)]
pub struct LoadError {
    pub refusal: Refusal,
    pub record: usize,
    pub byte: u8,
}

// One question.
pub fn require(good: bool, refusal: Refusal, byte: u8) -> Result<(), RecordError>
    ensures { result ≡ asked good refusal byte fine }
{
    if good {
        Ok(())
    } else {
        Err(RecordError { refusal, byte })
    }
}

impl Refusal {
    pub fn number(self) -> u8
        ensures { result ≡ number self }
    {
        self as u8
    }
}

impl RecordError {
    // The same in record `i` of a file.
    pub fn in_record(self, i: usize) -> LoadError
        ensures { result ≡ located self i }
    {
        LoadError {
            refusal: self.refusal,
            record: i,
            byte: self.byte,
        }
    }
}
