// The operations of terms on machine numbers: what theory's Value says of them, for widths 1 to 64.
//
// To read: words (numbers of n bits), apply (one operation, on the widths and numbers of its
// arguments), many (the operations of one argument or more).
#![tactic(auto, using(crate::proofs::Sets::laws))]

pub mod apply;
mod many;
pub mod words;
