// Levels: the lowest two bits of a code.
#![tactic(auto)]

ghost use Rattle.levels.specs.Level.{level};
ghost use Rattle.std.proofs.Common.{rules};

use kinds::Kind;

#[derive(Clone, Copy)]
pub struct Level;

impl Kind for Level {
    const BYTE: u8 = 100;

    const FRESH: u32 = 0;

    ghost meaning = { level };

    ghost closed = { Prim.search rules };

    fn kind_byte() -> u8 {
        Self::BYTE
    }

    fn fresh_code() -> u32 {
        Self::FRESH
    }

    // at most 3
    fn sum(a: u32, b: u32) -> u32 {
        (a % 4 + b % 4).min(3)
    }

    // at least 0
    fn difference(a: u32, b: u32) -> u32 {
        (a % 4).saturating_sub(b % 4)
    }

    fn less(a: u32, b: u32) -> u32 {
        (a % 4 < b % 4) as u32
    }

    fn same(a: u32, b: u32) -> u32 {
        (a % 4 == b % 4) as u32
    }

    fn holds(a: u32) -> bool {
        a % 4 >= 2
    }

    fn lawful(c: u32) -> bool {
        c < 4
    }
}

#[cfg(test)]
mod tests {
    use crate::{Kind, Level};
    use hosts::numbers::numbers_of;
    use jobs::job::Job;
    use jobs::session::Session;
    use records::reserved::Reserved;
    use std::test::Fail;

    // Cell 0 starts at level 1, which does not hold. Thread 0 creates thread 1 and raises the cell to 2; thread 1 asserts it.
    const FILE: [u8; 70] = [
        b'P', b'G', 100, 1, 0, 2, 0, 0, 0, 0, //
        b'S', b'C', 0, 0, 0, 0, 0, 0, 0, 1, //
        b'T', b'H', 0, 0, 2, 0, 0, 0, 0, 0, //
        b'S', b'T', 15, 1, 0, 0, 0, 0, 0, 0, //
        b'S', b'T', 3, 0, 0, 0, 0, 0, 0, 0, //
        b'T', b'H', 1, 0, 1, 0, 0, 0, 0, 0, //
        b'S', b'T', 10, 0, 0, 0, 0, 0, 0, 0,
    ];

    // In one round only the schedule 1, 1 fails: thread 1 asserts before the cell is raised.
    #[test]
    fn one_schedule_fails(rt: HostRuntime) -> Result<(), Fail> {
        let mut job: Job<Level> = Job::new(rt.alloc())?;
        assert!(rt; job.load(&FILE).is_ok());
        assert!(rt; job.translate(1).is_ok());
        let Ok(walk) = job.walk(100) else {
            return Err(Fail::new("Walk is refused"));
        };
        assert_eq!(rt; walk.failed, 1);
        assert_eq!(rt; walk.full, 4);
        let mut guesses = [0; 2];
        let mut schedule = [0; 2];
        assert!(rt; job.found(&mut guesses, &mut schedule).is_ok());
        assert_eq!(rt; schedule, [1, 1]);
        Ok(())
    }

    // The same on a session, by its schedules.
    #[test]
    fn one_schedule_of_a_session_fails(rt: HostRuntime) -> Result<(), Fail> {
        let mut session: Session<Level> = Session::new(rt.alloc())?;
        assert!(rt; session.load(&FILE).is_ok());
        assert!(rt; session.translate(1).is_ok());
        let Ok(survey) = session.survey(100) else {
            return Err(Fail::new("Survey is refused"));
        };
        assert_eq!(rt; survey.failed, 1);
        assert_eq!(rt; survey.full, 4);
        Ok(())
    }

    // A list takes as many items as it was reserved for.
    #[test]
    fn a_reserved_list_is_full(rt: HostRuntime) -> Result<(), Fail> {
        let mut list: Reserved<u8, 2> = Reserved::new(rt.alloc())?;
        list.extend_from_slice(&[7, 8]);
        list.push(9);
        assert_eq!(rt; list.len(), 2);
        Ok(())
    }

    #[test]
    fn two_words_are_two_numbers(rt: HostRuntime) -> Result<(), Fail> {
        let Some(numbers) = numbers_of(rt.alloc(), &["2", "255"])? else {
            return Err(Fail::new("a word is no number"));
        };
        assert_eq!(rt; numbers.len(), 2);
        Ok(())
    }
}
