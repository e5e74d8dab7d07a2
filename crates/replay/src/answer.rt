// The answers to a script.
use crate::hex::HexText;
use records::refusal::{LoadError, Refusal};
use reports::report::Report;
use std::fmt;
use walks::counts::Counts;
use walks::outcome::{Ending, Outcome};
use walks::walk;

#[derive(Drop)]
pub enum Answer {
    New,
    Loaded,
    Translated,
    Played {
        report: Report,
        counts: Vec<u8>,
        cells: Vec<u32>,
    },
    Saved(Vec<u8>),
    Surveyed(Counts),
    Refused(Refusal),
    RefusedFile(LoadError),
    Unreadable,
}

#[derive(Clone, Copy)]
struct OutcomeText(Outcome);

impl fmt::Display for OutcomeText {
    fn fmt<W: fmt::Write>(&self, f: &mut fmt::Formatter<W>) -> fmt::Result {
        match self.0 {
            Outcome::Open(_) => write!(f, "open"),
            Outcome::Ended(Ending::Failed) => write!(f, "failed"),
            Outcome::Ended(Ending::Cut) => write!(f, "cut"),
            Outcome::Ended(Ending::Full) => write!(f, "full"),
        }
    }
}

// A list with commas, or `-` for an empty one.
#[derive(Drop)]
struct ListText<'a, T>(&'a [T]);

impl<T: fmt::Display> fmt::Display for ListText<'_, T> {
    fn fmt<W: fmt::Write>(&self, f: &mut fmt::Formatter<W>) -> fmt::Result {
        if self.0.is_empty() {
            return write!(f, "-");
        }
        for (i, x) in self.0.iter().enumerate() {
            if i > 0 {
                write!(f, ",")?;
            }
            write!(f, "{x}")?;
        }
        Ok(())
    }
}

impl fmt::Display for Answer {
    fn fmt<W: fmt::Write>(&self, f: &mut fmt::Formatter<W>) -> fmt::Result {
        match self {
            Answer::New => write!(f, "new"),
            Answer::Loaded => write!(f, "loaded"),
            Answer::Translated => write!(f, "translated"),
            Answer::Played {
                report,
                counts,
                cells,
            } => write!(
                f,
                "{} read={} bound={} carried={} counts={} cells={}",
                OutcomeText(report.outcome),
                report.read,
                report.outcome.bound(),
                report.carried,
                ListText(counts.as_slice()),
                ListText(cells.as_slice())
            ),
            Answer::Saved(file) => write!(f, "{} bytes {}", file.len(), HexText(file.as_slice())),
            Answer::Surveyed(counts) => {
                let word = match counts.answer {
                    walk::Answer::Done => "done",
                    walk::Answer::Spent => "spent",
                };
                write!(
                    f,
                    "{word} visited={} failed={} cut={} full={}",
                    counts.visited, counts.failed, counts.cut, counts.full
                )
            }
            Answer::Refused(refusal) => write!(f, "refused {}", refusal.number()),
            Answer::RefusedFile(e) => {
                write!(
                    f,
                    "refused {} at {},{}",
                    e.refusal.number(),
                    e.record,
                    e.byte
                )
            }
            Answer::Unreadable => write!(f, "unreadable"),
        }
    }
}
