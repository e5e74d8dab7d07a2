// What look is asked for on its command line.
ghost use Rattle.std.specs.Prelude.{◌≡◌, ◌-◌, length, IfSome, IfOk};
ghost use Rattle.look.specs.Requests.{Named};

use hosts::numbers::numbers_of;
use std::alloc::{AllocError, Global};

pub const USAGE: &str =
    "usage: look FILE K                 every schedule: how many fail, and the first ten that do\n       look FILE K --failures N    the same, with at most N failing schedules\n       look FILE K NUMBER..        one schedule\n  FILE    a program file\n  K       the number of rounds, 1 to 8\n  NUMBER  for each slot in turn, how many statements its thread is to carry out, 0 to 255\n";

// How many failing schedules are shown where nothing else is said.
const SHOWN: usize = 10;

// One schedule, or all of them with so many failing ones shown.
#[derive(Drop)]
pub enum Task {
    Play(Vec<u8>),
    Survey(usize),
}

#[derive(Drop)]
pub struct Request {
    pub file: String,
    pub rounds: u32,
    pub task: Task,
}

// The task that the words behind FILE and K name.
fn task_of(heap: Global, words: &[String]) -> Result<Option<Task>, AllocError>
    ensures { IfOk result (λ o. IfSome o (Named (length words.now))) }
{
    match words {
        [] => Ok(Some(Task::Survey(SHOWN))),
        [flag, n] if flag.as_str() == "--failures" => Ok(n.as_str().parse().ok().map(Task::Survey)),
        _ => Ok(numbers_of(heap, words)?.map(Task::Play)),
    }
}

impl Request {
    // None where the words are not a request. The first word is the program's own name.
    pub fn from_words(heap: Global, words: &[String]) -> Result<Option<Request>, AllocError>
        ensures { IfOk result (λ o. IfSome o (λ q. Named (length words.now - 3) q.task)) }
    {
        let [_, file, rounds, rest @ ..] = words else {
            return Ok(None);
        };
        let Ok(rounds) = rounds.as_str().parse::<u32>() else {
            return Ok(None);
        };
        let Some(task) = task_of(heap, rest)? else {
            return Ok(None);
        };
        let file = file.clone()?;
        Ok(Some(Request { file, rounds, task }))
    }
}
