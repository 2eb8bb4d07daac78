// The definitions of a text's conversion into a job, and their laws, are antt: specs/ and proofs/.
#![tactic(auto)]

// The code of a line that is refused.
pub const REFUSED: u32 = 25;
