// How outcomes are written for a person.
use std::fmt;
use walks::outcome::{Ending, Outcome};

// What a run came to, in words.
#[derive(Clone, Copy)]
pub struct OutcomeText(pub Outcome);

impl fmt::Display for OutcomeText {
    fn fmt<W: fmt::Write>(&self, f: &mut fmt::Formatter<W>) -> fmt::Result {
        match self.0 {
            Outcome::Open(bound) => { write!(f, "open: a number from 0 to {bound} may follow") }
            Outcome::Ended(Ending::Failed) => write!(f, "failed: a statement failed"),
            Outcome::Ended(Ending::Cut) => {
                write!(
                    f,
                    "cut: a thread could not carry out as many statements as its number says"
                )
            }
            Outcome::Ended(Ending::Full) => write!(f, "full: all rounds are over"),
        }
    }
}
