// Bits of which some are not known: the gates on them, their bytes, a term's bits read from the
// cells, and the bit of a Bool from its arguments'.
#![tactic(auto, using(crate::proofs::Sets::laws))]

pub mod bits;
pub mod codes;
pub mod gates;
pub mod kinds;
