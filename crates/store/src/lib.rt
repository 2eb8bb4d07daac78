// The kept terms of a job, read: gates looked up among their records, a term at a place, its sort
// and depth.
#![tactic(auto)]

pub mod gates;
pub mod measures;
pub mod shelf;
pub mod sorts;
