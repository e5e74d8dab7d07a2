// The sequential machine on one program.
use kinds::Kind;
use sequences::sequence::Sequence;

// A struct of its own, for a runner's laws have to stand beside its type.
#[derive(Drop)]
pub struct SequentialMachine<V: Kind> {
    pub sequence: Sequence<V>,
}
