// takeaway: K's byte and then a program file on standard input; the file of the sequential program on standard output, or
// the last two digits of the refusal and a line break.
#![tactic(auto)]

use sequences::sequence::Sequence;
use std::io::{Read, Write};
use tables::table::Table;
use takeaways::reply::reply;

fn main(rt: HostRuntime) -> anyhow::Result<()> {
    let heap = rt.alloc();
    let mut input = Vec::new(heap);
    let _read = rt.stdin().read_to_end(&mut input)?;
    let mut table = Table::new(heap)?;
    let mut words = Sequence::new(heap)?;
    let mut truths = Sequence::new(heap)?;
    let mut out = [0; 22110];
    let Ok(n) = reply(
        input.as_slice(),
        &mut table,
        &mut words,
        &mut truths,
        &mut out,
    ) else {
        unreachable();
    };
    rt.stdout().write_all(&out[0..n])?;
    Ok(())
}
