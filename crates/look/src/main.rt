// look: shows a program file, and plays one schedule on it or all of them.
#![tactic(auto)]

ghost use Rattle.std.specs.Prelude.{◌≡◌, ◌≤◌, true, length, is_ok};
ghost use Rattle.look.specs.Looks.{Shown};
ghost use Rattle.look.specs.Surveys.{outcomes};
ghost use Rattle.threads.specs.Points.{Ready};
ghost use Rattle.walks.specs.Leaves.{leaves, Complete};

use crate::failures::{Failures, visit_some};
use crate::request::{Request, Task, USAGE};
use crate::show::{RunText, SurveyText, TableText};
use crate::sight::run_of;
use anyhow::anyhow;
use hosts::known::KnownKind;
use kinds::{Kind, Truth, Words};
use reports::walking::{BUDGET_LIMIT, LEAF_LIMIT};
use std::process::ExitCode;
use std::{env, fs};
use surveys::setup::machine_of;
use threads::machine::Machine;
use walks::walk::{Answer, Walk};

mod failures;
mod request;
mod show;
mod sight;
mod text;

// Plays one schedule.
fn play<'a, V: Kind>(
    rt: &HostRuntime,
    machine: &'a Machine<V>,
    numbers: &'a [u8],
) -> anyhow::Result<()>
    ensures { is_ok result ≡ true → length numbers.now ≤ 64 }
{
    match run_of(machine, numbers) {
        Ok(run) => {
            let text = RunText {
                machine,
                numbers,
                run,
            };
            print!(rt; "{text}")?;
            Ok(())
        }
        Err(refusal) => {
            eprintln!(rt; "look: {refusal}")?;
            Err(anyhow!("refused"))
        }
    }
}

// Visits all schedules, or as many as a walk may, and says how far it is after as many as a call may visit.
fn survey<V: Kind>(rt: &HostRuntime, machine: &Machine<V>, most: usize) -> anyhow::Result<()>
    ensures { Ready V.meaning machine.now → Complete (outcomes V.meaning machine.now) (leaves (outcomes V.meaning machine.now)) }
{
    let heap = rt.alloc();
    let mut walk = Walk::begin(machine);
    let mut failures = Failures::new(heap, most);
    let mut done = false;
    for _ in 0..LEAF_LIMIT / BUDGET_LIMIT {
        if walk.visited() > LEAF_LIMIT - BUDGET_LIMIT {
            break;
        }
        match visit_some(heap, &mut walk, machine, BUDGET_LIMIT, &mut failures)? {
            Answer::Done => {
                done = true;
                break;
            }
            Answer::Spent => {
                let visited = walk.visited();
                let failed = walk.failed();
                eprintln!(rt; "look: {visited} schedules visited, {failed} failed")?;
            }
        }
    }
    let text = SurveyText {
        machine,
        walk: &walk,
        failures: &failures,
        done,
    };
    print!(rt; "{text}")?;
    Ok(())
}

// Shows a file of one kind. What is printed no contract can say; that nothing was refused, it can.
fn look<V: Kind>(
    rt: &HostRuntime,
    kind: &'static str,
    file: &[u8],
    request: &Request,
) -> anyhow::Result<()>
    ensures { is_ok result ≡ true → Shown V.meaning file.now request.now.rounds request.now.task }
{
    let machine = match machine_of::<V>(rt.alloc(), file, request.rounds) {
        Ok(machine) => machine,
        Err(problem) => {
            eprintln!(rt; "look: {problem}")?;
            return Err(anyhow!("refused"));
        }
    };
    let table = TableText {
        kind,
        table: &machine.table,
    };
    print!(rt; "{table}")?;
    match &request.task {
        Task::Play(numbers) => play(rt, &machine, numbers.as_slice()),
        Task::Survey(most) => survey(rt, &machine, *most),
    }
}

// What was refused is said on standard error, and not once more: only the status tells of it too.
fn main(rt: HostRuntime) -> anyhow::Result<ExitCode> {
    let words: Vec<String> = env::args(&rt)?.collect(rt.alloc())?;
    let Some(request) = Request::from_words(rt.alloc(), words.as_slice())? else {
        eprint!(rt; "{USAGE}")?;
        return Ok(ExitCode::FAILURE);
    };
    let file = match fs::read(&rt, request.file.as_str()) {
        Ok(file) => file,
        Err(e) => {
            let name = request.file.as_str();
            eprintln!(rt; "look: cannot read {name}: {e}")?;
            return Ok(ExitCode::FAILURE);
        }
    };
    let shown = match KnownKind::of(file.as_slice()) {
        KnownKind::Words => look::<Words>(&rt, "words", file.as_slice(), &request),
        KnownKind::Truth => look::<Truth>(&rt, "truth values", file.as_slice(), &request),
    };
    match shown {
        Ok(()) => Ok(ExitCode::SUCCESS),
        Err(_) => Ok(ExitCode::FAILURE),
    }
}
