// What a walk has counted since its beginning.
use crate::walk::Answer;

// Whether leaves are left, and how many were visited: in all, and by how they ended.
#[derive(Clone, Copy, Debug, PartialEq, Eq)]
pub struct Counts {
    pub answer: Answer,
    pub visited: u32,
    pub failed: u32,
    pub cut: u32,
    pub full: u32,
}
