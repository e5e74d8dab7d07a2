// The records of a file.
ghost use Rattle.std.specs.Prelude.{◌≡◌, false, MatchOption};
ghost use Rattle.records.specs.Lines.{lines as lines_of, known, seen, numbered};

use crate::body::Body;

// The ten bytes of a record.
pub type Line = [u8; 10];

// A record that was read is a part of the file, with its number: it borrows the eight bytes behind its mark.
#[derive(Clone, Copy)]
pub enum Record<'a> {
    Pg(usize, &'a Body),
    Sc(usize, &'a Body),
    Th(usize, &'a Body),
    St(usize, &'a Body),
}

// The records of a file, those with no mark among them. What is left behind them is not looked at.
pub fn lines(file: &[u8]) -> &[Line]
    ensures { result.now ≡ lines_of file.now }
{
    let (lines, _) = file.as_chunks::<10>();
    lines
}

impl<'a> Record<'a> {
    // The record numbered `i`, or none where no record has its mark.
    pub fn read(i: usize, line: &'a Line) -> Option<Record<'a>>
        ensures { MatchOption result (known line.now ≡ false) (λ x. (seen x ≡ line.now) × (numbered x ≡ i)) }
    {
        let body = line.last_chunk()?;
        match (line[0], line[1]) {
            (b'P', b'G') => Some(Record::Pg(i, body)),
            (b'S', b'C') => Some(Record::Sc(i, body)),
            (b'T', b'H') => Some(Record::Th(i, body)),
            (b'S', b'T') => Some(Record::St(i, body)),
            _ => None,
        }
    }
}
