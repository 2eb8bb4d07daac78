// Terms and steps put into the memory for a job, each term once.
#![tactic(auto, using(crate::proofs::Sets::laws))]

mod encode;
pub mod places;
mod records;
