// Names: declarations, and variables by their names.
//
// To read: marks (tokens that must follow), kinds (kinds and the numbers in them), symbols (which
// words are names), lines, names (declarations).
#![tactic(auto, using(crate::proofs::Sets::laws))]

pub mod kinds;
pub mod lines;
pub mod marks;
pub mod names;
pub mod symbols;
