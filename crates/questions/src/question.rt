// The questions on a file.
ghost use Rattle.std.specs.Prelude.{◌≡◌, MatchResult};
ghost use Rattle.questions.specs.Asks.{ask as asked_of};
ghost use Rattle.questions.specs.Past.{Sound, past as passed};
ghost use Rattle.records.specs.Verdict.{fine, bad};
ghost use Rattle.questions.specs.Question.{question as asked, ended};

use crate::context::{Context, Due};
use kinds::Kind;
use records::reader::{Line, Record, lines};
use records::refusal::{LoadError, RecordError, Refusal};

// The questions on the record in line `i`, and what is due behind it.
fn step<V: Kind>(x: &Context, i: usize, line: &Line) -> Result<Context, RecordError>
    requires { Sound x.now }
    ensures { MatchResult result (λ y. (asked_of V.meaning x.now line.now ≡ fine) × (y ≡ passed x.now line.now) × Sound y) (λ p. asked_of V.meaning x.now line.now ≡ bad p.refusal p.byte) }
{
    let Some(r) = Record::read(i, line) else {
        return Err(x.unmarked());
    };
    x.ask::<V>(r)?;
    Ok(x.past(r))
}

// The file's end behind `n` records: is one due?
fn end(x: &Context, n: usize) -> Result<(), LoadError>
    ensures { result ≡ ended x.now.due n }
{
    match x.due {
        Due::End => Ok(()),
        _ => Err(LoadError {
            refusal: Refusal::Missing,
            record: n,
            byte: 0,
        }),
    }
}

// Is the file one that Load accepts?
pub fn question<V: Kind>(file: &[u8]) -> Result<(), LoadError>
    ensures { result ≡ asked V.meaning file.now }
{
    if file.len() < 30 || file.len() > 4090 || file.len() % 10 != 0 {
        return Err(LoadError {
            refusal: Refusal::Length,
            record: 0,
            byte: 0,
        });
    }
    let mut x = Context::start();
    for (i, line) in lines(file).iter().enumerate() {
        x = step::<V>(&x, i, line).map_err(|e| e.in_record(i))?;
    }
    end(&x, file.len() / 10)
}
