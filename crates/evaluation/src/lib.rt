// The value of a kept term from the values of its arguments, which stand in a lent buffer: eight
// bytes for each kept term, `true` and `false` too.
//
// To read: cells (the buffer), evaluate (one term).
#![tactic(auto, using(crate::proofs::Sets::laws))]

pub mod cells;
pub mod evaluate;
