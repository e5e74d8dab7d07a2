// The file of a sequential program: the section writer, Emit, and Digits.
#![tactic(auto)]

pub mod digits;
pub mod emit;
pub mod owed;
pub mod owner;
mod rows;

#[cfg(test)]
mod tests {
    use crate::digits::digits;
    use crate::owed::{OwedCount, Unclosed};
    use crate::owner::Owner;
    use sequences::instruction::Instruction;

    // Ten bytes are too short a buffer for a section of one instruction.
    #[test]
    fn refused_closing_stays_owed(rt: HostRuntime) {
        let mut out = [7; 21];
        let mut short = [7; 10];
        let Ok(mut owed) = OwedCount::begin(&mut out, 0, Owner::Driver) else {
            unreachable();
        };
        let Ok(()) = owed.add(&mut out, Instruction::End) else {
            unreachable();
        };
        let Err(Unclosed { owed, refusal: _ }) = owed.close(&mut short) else {
            unreachable();
        };
        let end = match owed.close(&mut out) {
            Ok(end) => end,
            Err(_unclosed) => unreachable(),
        };
        assert_eq!(rt; short[9], 7);
        assert_eq!(rt; end, 20);
        assert_eq!(rt; out[9], 1);
        assert_eq!(rt; out[12], 43);
        assert_eq!(rt; out[20], 7);
    }

    #[test]
    fn last_two_digits(rt: HostRuntime) {
        let mut out = [0; 4];
        assert!(rt; digits(1305, &mut out).is_ok());
        assert_eq!(rt; out, [b'0', b'5', 10, 0]);
    }
}
