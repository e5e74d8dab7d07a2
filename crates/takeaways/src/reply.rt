// From K's byte and a program file to the file of its sequential program, or the digits of the refusal.
ghost use Rattle.std.specs.Prelude.{◌≡◌, ◌≤◌, true, length, drop, is_ok, IfOk, slice_index};
ghost use Rattle.hosts.specs.Knowns.{kind_of};
ghost use Rattle.records.specs.Wrote.{counted, filled};
ghost use Rattle.takeaways.specs.Replies.{rounds_asked, carried, answered, left_in, taken, said, spoken};

use hosts::known::KnownKind;
use kinds::{Kind, Truth, Words};
use records::refusal::Refusal;
use sections::digits::digits;
use sections::emit::emit;
use sequences::sequence::Sequence;
use tables::table::Table;

// Is K from 1 to 8?
fn ask_rounds(k: u8) -> Result<(), Refusal>
    ensures answer { result ≡ rounds_asked k }
    ensures few { is_ok result ≡ true → k ≤ 8 }
{
    if k < 1 || k > 8 {
        return Err(Refusal::Rounds);
    }
    Ok(())
}

// Load, Translate and Emit.
fn carry<V: Kind>(
    k: u8,
    file: &[u8],
    table: &mut Table,
    sequence: &mut Sequence<V>,
    out: &mut [u8],
) -> Result<usize, Refusal>
    ensures answer { result ≡ answered out.old (carried V.meaning k file.now) }
    ensures after { out.new ≡ left_in out.old (carried V.meaning k file.now) }
{
    // by `map_err` and `?` the proof didn't close
    if let Err(e) = table.load::<V>(file) {
        return Err(e.refusal);
    }
    ask_rounds(k)?;
    sequence.translate(table, k);
    emit(table, k, sequence, out)
}

// The same for the kind that the file names.
fn carry_by_kind(
    k: u8,
    file: &[u8],
    table: &mut Table,
    words: &mut Sequence<Words>,
    truths: &mut Sequence<Truth>,
    out: &mut [u8],
) -> Result<usize, Refusal>
    ensures answer { result ≡ answered out.old (carried (kind_of file.now) k file.now) }
    ensures after { out.new ≡ left_in out.old (carried (kind_of file.now) k file.now) }
{
    match KnownKind::of(file) {
        KnownKind::Words => carry(k, file, table, words, out),
        KnownKind::Truth => carry(k, file, table, truths, out),
    }
}

// K's byte, and the file behind it. No input is K 0 and an empty file.
fn split(input: &[u8]) -> (u8, &[u8])
    ensures rounds { result.0 ≡ slice_index input.now 0 }
    ensures file { result.1.now ≡ drop 1 input.now }
{
    match input {
        [k, file @ ..] => (*k, file),
        [] => (0, input),
    }
}

// What takeaway says of its input: the file of the sequential program, or the refusal's last two digits and a line break.
// `table`, `words` and `truths` are only room to work in.
pub fn reply(
    input: &[u8],
    table: &mut Table,
    words: &mut Sequence<Words>,
    truths: &mut Sequence<Truth>,
    out: &mut [u8],
) -> Result<usize, Refusal>
    ensures answer { result ≡ counted out.old (said out.old (taken input.now)) }
    ensures after { out.new ≡ filled out.old (said out.old (taken input.now)) }
    ensures whole { 22110 ≤ length out.old → said out.old (taken input.now) ≡ spoken (taken input.now) }
    ensures within { IfOk result (λ n. n ≤ length out.old) }
    ensures some { 3 ≤ length out.old → is_ok result ≡ true }
{
    let (k, file) = split(input);
    match carry_by_kind(k, file, table, words, truths, out) {
        Ok(n) => Ok(n),
        Err(refusal) => digits(u32::from(refusal.number()), out),
    }
}
