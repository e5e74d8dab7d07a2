// replay: answers a script of calls, a line each.
#![tactic(auto)]

use crate::answer::Answer;
use crate::call::Line;
use crate::desk::Desk;
use std::io::{BufRead, BufReader};

mod answer;
mod call;
mod desk;
mod hex;
mod reply;

fn main(rt: HostRuntime) -> anyhow::Result<()> {
    let heap = rt.alloc();
    let mut desk = Desk::Nothing;
    for bytes in BufReader::new(heap, rt.stdin())?.split(heap, b'\n') {
        let bytes = bytes?;
        let answer = match Line::from_bytes(heap, bytes.as_slice())? {
            Some(line) => desk.reply(heap, &line)?,
            None => Answer::Unreadable,
        };
        println!(rt; "{answer}")?;
    }
    Ok(())
}
