// How a table and a run are shown.
use crate::failures::Failures;
use crate::sight::Run;
use crate::text::OutcomeText;
use kinds::Kind;
use records::statement::Thread;
use std::fmt;
use tables::table::Table;
use threads::machine::Machine;
use threads::point::Point;
use walks::outcome::{Ending, Outcome};
use walks::walk::Walk;

// The statements of one thread, a line each.
#[derive(Drop)]
struct ThreadText<'a> {
    table: &'a Table,
    thread: Thread,
}

impl fmt::Display for ThreadText<'_> {
    fn fmt<W: fmt::Write>(&self, f: &mut fmt::Formatter<W>) -> fmt::Result {
        let text = self.table.text(self.thread);
        writeln!(
            f,
            "thread {}: {} statements, {} local cells",
            self.thread.0, text.size, text.locals
        )?;
        for (t, s) in self.table.statements_of(self.thread).iter().enumerate() {
            writeln!(f, "  {t:>2}  {s}")?;
        }
        Ok(())
    }
}

// What is in a table.
#[derive(Drop)]
pub struct TableText<'a> {
    pub kind: &'static str,
    pub table: &'a Table,
}

impl fmt::Display for TableText<'_> {
    fn fmt<W: fmt::Write>(&self, f: &mut fmt::Formatter<W>) -> fmt::Result {
        let table = self.table;
        let cells = table.cells();
        writeln!(
            f,
            "program over {}: {} threads, {} shared cells, {} mutexes",
            self.kind,
            table.threads(),
            cells.len(),
            table.mutexes()
        )?;
        for (i, c) in cells.iter().enumerate() {
            writeln!(f, "shared cell s{i} starts at {c}")?;
        }
        // a table says of a thread what its number asks for, and lends no list of threads
        for i in 0..table.threads() {
            let thread = Thread(i);
            write!(f, "{}", ThreadText { table, thread })?;
        }
        Ok(())
    }
}

// The slots that the numbers of a schedule had, a line each.
#[derive(Drop)]
struct SlotsText<'a, V: Kind> {
    machine: &'a Machine<V>,
    numbers: &'a [u8],
}

impl<V: Kind> fmt::Display for SlotsText<'_, V> {
    fn fmt<W: fmt::Write>(&self, f: &mut fmt::Formatter<W>) -> fmt::Result {
        let threads = self.machine.table.threads().max(1);
        let mut at = self.machine.first();
        let mut outcome = self.machine.standing(&at);
        for n in self.numbers {
            if matches!(outcome, Outcome::Ended(_)) {
                return Ok(());
            }
            let round = (at.slot / threads).saturating_add(1);
            let i = at.slot % threads;
            let turn = self.machine.turn(&mut at, *n);
            write!(
                f,
                "  round {round}, thread {i}: number {n}, {} statements carried out",
                turn.count.0
            )?;
            if turn.outcome == Outcome::Ended(Ending::Failed) {
                let label = at.state.threads.label(Thread(i));
                if let Some(s) = self.machine.table.statement(Thread(i), label) {
                    write!(f, "; statement {label} failed: {s}")?;
                }
            }
            writeln!(f, "")?;
            outcome = turn.outcome;
        }
        Ok(())
    }
}

// A run over a schedule.
#[derive(Drop)]
pub struct RunText<'a, V: Kind> {
    pub machine: &'a Machine<V>,
    pub numbers: &'a [u8],
    pub run: Run,
}

impl<V: Kind> fmt::Display for RunText<'_, V> {
    fn fmt<W: fmt::Write>(&self, f: &mut fmt::Formatter<W>) -> fmt::Result {
        let (machine, numbers) = (self.machine, self.numbers);
        let report = self.run.report;
        let read = self.run.report.read;
        writeln!(
            f,
            "schedule of {} numbers over {} rounds",
            numbers.len(),
            machine.rounds
        )?;
        write!(f, "{}", SlotsText { machine, numbers })?;
        writeln!(f, "outcome: {}", OutcomeText(report.outcome))?;
        writeln!(
            f,
            "numbers read: {}; statements carried out: {}",
            report.read, report.carried
        )?;
        write!(f, "slot counts:")?;
        for c in self.run.counts.iter().take(usize::from(read)) {
            write!(f, " {c}")?;
        }
        writeln!(f, "")?;
        write!(f, "cells:")?;
        let own = machine.table.cells().len();
        for (i, c) in self.run.cells.iter().take(own).enumerate() {
            write!(f, " s{i}={c}")?;
        }
        writeln!(f, "")
    }
}

// What a survey counted, and the first schedules that fail.
#[derive(Drop)]
pub struct SurveyText<'a, V: Kind> {
    pub machine: &'a Machine<V>,
    pub walk: &'a Walk<Point>,
    pub failures: &'a Failures,
    pub done: bool,
}

impl<V: Kind> fmt::Display for SurveyText<'_, V> {
    fn fmt<W: fmt::Write>(&self, f: &mut fmt::Formatter<W>) -> fmt::Result {
        let machine = self.machine;
        let rounds = machine.rounds;
        let visited = self.walk.visited();
        if self.done {
            writeln!(f, "all schedules over {rounds} rounds: {visited}")?;
        } else {
            writeln!(
                f,
                "the first {visited} schedules over {rounds} rounds; there are more, and a walk visits no more than that"
            )?;
        }
        writeln!(
            f,
            "failed: {}; cut: {}; full: {}",
            self.walk.failed(),
            self.walk.cut(),
            self.walk.full()
        )?;
        for numbers in &self.failures.lists {
            write!(f, "failing schedule:")?;
            for n in numbers {
                write!(f, " {n}")?;
            }
            writeln!(f, "")?;
            let numbers = numbers.as_slice();
            write!(f, "{}", SlotsText { machine, numbers })?;
        }
        Ok(())
    }
}
