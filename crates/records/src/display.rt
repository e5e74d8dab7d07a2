// How places, statements and refusals are written for a person.
use crate::refusal::{LoadError, Refusal};
use crate::statement::{Label, Mutex, Place, Statement, Thread};
use std::fmt;

// A place: `s` and the number of a shared cell, or `l` and that of a local one.
impl fmt::Display for Place {
    fn fmt<W: fmt::Write>(&self, f: &mut fmt::Formatter<W>) -> fmt::Result {
        match *self {
            Place::Shared(n) => write!(f, "s{n}"),
            Place::Local(n) => write!(f, "l{n}"),
        }
    }
}

// A label is a number alone, mutexes are `m` and a number, threads `t` and a number.
impl fmt::Display for Label {
    fn fmt<W: fmt::Write>(&self, f: &mut fmt::Formatter<W>) -> fmt::Result {
        write!(f, "{}", self.0)
    }
}

impl fmt::Display for Mutex {
    fn fmt<W: fmt::Write>(&self, f: &mut fmt::Formatter<W>) -> fmt::Result {
        write!(f, "m{}", self.0)
    }
}

impl fmt::Display for Thread {
    fn fmt<W: fmt::Write>(&self, f: &mut fmt::Formatter<W>) -> fmt::Result {
        write!(f, "t{}", self.0)
    }
}

// A statement as a line of a listing.
impl fmt::Display for Statement {
    fn fmt<W: fmt::Write>(&self, f: &mut fmt::Formatter<W>) -> fmt::Result {
        match *self {
            Statement::Set { d, c } => write!(f, "SET {d} {c}"),
            Statement::Copy { d, a } => write!(f, "COPY {d} {a}"),
            Statement::Sum { d, a, b } => write!(f, "SUM {d} {a} {b}"),
            Statement::Difference { d, a, b } => write!(f, "DIFFERENCE {d} {a} {b}"),
            Statement::Less { d, a, b } => write!(f, "LESS {d} {a} {b}"),
            Statement::Same { d, a, b } => write!(f, "SAME {d} {a} {b}"),
            Statement::Jump { t } => write!(f, "JUMP {t}"),
            Statement::Branch { a, t } => write!(f, "BRANCH {a} {t}"),
            Statement::Assume { a } => write!(f, "ASSUME {a}"),
            Statement::Assert { a } => write!(f, "ASSERT {a}"),
            Statement::Init { m } => write!(f, "INIT {m}"),
            Statement::Destroy { m } => write!(f, "DESTROY {m}"),
            Statement::Lock { m } => write!(f, "LOCK {m}"),
            Statement::Unlock { m } => write!(f, "UNLOCK {m}"),
            Statement::Create { j } => write!(f, "CREATE {j}"),
            Statement::Join { j } => write!(f, "JOIN {j}"),
        }
    }
}

// The number of a refusal, and what it means.
impl fmt::Display for Refusal {
    fn fmt<W: fmt::Write>(&self, f: &mut fmt::Formatter<W>) -> fmt::Result {
        write!(f, "refused ({}): ", self.number())?;
        match *self {
            Refusal::Length => write!(f, "the file has to have 3 to 409 records of ten bytes"),
            Refusal::Mark => write!(f, "another record is due here"),
            Refusal::Missing => write!(f, "the file ends, and a record is still due"),
            Refusal::Trailing => write!(f, "the program is complete, and the file goes on"),
            Refusal::KindByte => write!(f, "the file is for another kind of value"),
            Refusal::Counts => write!(f, "at most 16 cells and 8 mutexes, and 1 to 8 threads"),
            Refusal::Index => write!(f, "cells and threads have to be numbered in turn from 0"),
            Refusal::ThreadSize => write!(
                f,
                "a thread has at most 8 local cells, and 1 to 48 statements"
            ),
            Refusal::Unused => write!(f, "a byte that the record does not use is not zero"),
            Refusal::Operation => write!(f, "no statement has this number"),
            Refusal::Place => write!(f, "there is no cell at this place"),
            Refusal::Code => write!(f, "the code is not lawful for this kind of value"),
            Refusal::Target => write!(f, "a jump has to lead forward, at most to the thread's end"),
            Refusal::Mutex => write!(f, "the program has no such mutex"),
            Refusal::Thread => write!(f, "there is no such thread, or none that may be created"),
            Refusal::CreatedTwice => write!(f, "an earlier CREATE names this thread"),
            Refusal::NotLoaded => write!(f, "no program is loaded"),
            Refusal::Rounds => write!(f, "the number of rounds K has to be 1 to 8"),
            Refusal::NotTranslated => write!(f, "no program is translated"),
            Refusal::Budget => write!(f, "a budget has to be 1 to 65,536 leaves"),
            Refusal::LeafLimit => write!(f, "the walk would visit more than 16,777,216 leaves"),
            Refusal::ListLength => write!(f, "at most 64 numbers"),
            Refusal::BufferShort => write!(f, "the buffer is too short"),
            Refusal::NothingFound => write!(f, "no failure was found"),
        }
    }
}

// A refusal with its place in the file.
impl fmt::Display for LoadError {
    fn fmt<W: fmt::Write>(&self, f: &mut fmt::Formatter<W>) -> fmt::Result {
        write!(
            f,
            "{}, in record {} at byte {}",
            self.refusal, self.record, self.byte
        )
    }
}
