// Terms of a line read into a job: a term and its arguments.
#![tactic(auto, using(crate::proofs::Sets::laws))]

pub mod reading;
