// How a term begins: a whole term without arguments, or an operation.
#![tactic(auto, using(crate::proofs::Sets::laws))]

pub mod heads;
