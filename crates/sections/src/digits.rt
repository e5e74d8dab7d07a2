// Digits.
ghost use Rattle.std.specs.Prelude.{◌≡◌};
ghost use Rattle.records.specs.Wrote.{counted, filled};
ghost use Rattle.sections.specs.Digits.{two_digits};

use records::refusal::Refusal;
use records::row::room_for;

// Writes the last two decimal digits of a number and a line break, and answers 3.
pub fn digits(n: u32, out: &mut [u8]) -> Result<usize, Refusal>
    ensures answer { result ≡ counted out.old (two_digits n) }
    ensures after { out.new ≡ filled out.old (two_digits n) }
{
    room_for(out, 3)?;
    out[0] = (48 + n / 10 % 10) as u8;
    out[1] = (48 + n % 10) as u8;
    out[2] = b'\n';
    Ok(3)
}
