// Why there is nothing to tell.
ghost use Rattle.std.specs.Prelude.{◌≡◌};
ghost use Rattle.hosts.specs.Problems.{problem_number};
ghost use Rattle.hosts.specs.declared.problem.Problem.TheVariants.{Memory, File, Call};

use records::refusal::{LoadError, Refusal};
use std::alloc::AllocError;
use std::fmt;

#[derive(Clone, Copy)]
pub enum Problem {
    Memory,
    File(LoadError),
    Call(Refusal),
}

impl From<AllocError> for Problem {
    ghost from_gives = { λ _ p. p ≡ Memory };

    fn from(_e: AllocError) -> Problem {
        Problem::Memory
    }
}

impl From<LoadError> for Problem {
    ghost from_gives = { λ e p. p ≡ File e };

    fn from(e: LoadError) -> Problem {
        Problem::File(e)
    }
}

impl From<Refusal> for Problem {
    ghost from_gives = { λ e p. p ≡ Call e };

    fn from(e: Refusal) -> Problem {
        Problem::Call(e)
    }
}

impl Problem {
    // The number that host programs are told: that of the refusal, or 99, which no refusal has.
    pub fn number(self) -> u8
        ensures { result ≡ problem_number self }
    {
        match self {
            Problem::Memory => 99,
            Problem::File(e) => e.refusal.number(),
            Problem::Call(refusal) => refusal.number(),
        }
    }
}

impl fmt::Display for Problem {
    fn fmt<W: fmt::Write>(&self, f: &mut fmt::Formatter<W>) -> fmt::Result {
        match *self {
            Problem::Memory => write!(f, "there is not enough memory for a table"),
            Problem::File(e) => write!(f, "{e}"),
            Problem::Call(refusal) => write!(f, "{refusal}"),
        }
    }
}
