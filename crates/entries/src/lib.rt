// The two kinds of lines: declarations and steps.
#![tactic(auto, using(crate::proofs::Sets::laws))]

pub mod declarations;
pub mod steps;
