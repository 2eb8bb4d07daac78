// The bits of a term of the final store where only part of its inputs is known.
#![tactic(auto, using(crate::proofs::Sets::laws))]

pub mod inputs;
pub mod levels;
pub mod number;
pub mod output;
pub mod pass;
