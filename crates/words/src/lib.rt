// Tokens of a line, tables of words, and numbers.
#![tactic(auto, using(crate::proofs::Sets::laws))]

pub mod numbers;
pub mod tables;
pub mod tokens;
