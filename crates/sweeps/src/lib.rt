// The definitions of the requests that run a job and then evaluate a term of its final store
// (specs), and their laws (proofs).
#![tactic(auto)]
