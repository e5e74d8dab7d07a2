// Kinds of value: what the 32-bit codes in a program's cells stand for.
#![tactic(auto)]

pub mod kind;
pub mod truth;
pub mod words;

pub use kind::Kind;
pub use truth::Truth;
pub use words::Words;

#[cfg(test)]
mod tests {
    use super::*;

    #[test]
    fn words_wrap(rt: HostRuntime) {
        assert_eq!(rt; Words::sum(0xffff_ffff, 2), 1);
        assert_eq!(rt; Words::difference(1, 2), 0xffff_ffff);
        assert_eq!(rt; Words::same(7, 7), 1);
        assert_eq!(rt; Words::same(7, 8), 0);
    }

    #[test]
    fn words_are_signed(rt: HostRuntime) {
        assert_eq!(rt; Words::less(0xffff_ffff, 0), 1);
        assert_eq!(rt; Words::less(0, 0xffff_ffff), 0);
        assert_eq!(rt; Words::less(0x7fff_ffff, 0x8000_0000), 0);
        assert_eq!(rt; Words::less(3, 3), 0);
        assert!(rt; Words::holds(2) && !Words::holds(0));
    }

    // Codes above 1 are not lawful, and are read by their lowest bit all the same.
    #[test]
    fn truth_values_read_one_bit(rt: HostRuntime) {
        assert_eq!(rt; Truth::sum(2, 3), 1);
        assert_eq!(rt; Truth::difference(3, 2), 1);
        assert_eq!(rt; Truth::difference(1, 1), 0);
        assert_eq!(rt; Truth::less(2, 5), 1);
        assert_eq!(rt; Truth::less(5, 2), 0);
        assert_eq!(rt; Truth::same(4, 2), 1);
        assert!(rt; Truth::holds(7) && !Truth::holds(6));
        assert!(rt; Truth::lawful(1) && !Truth::lawful(2));
    }
}
