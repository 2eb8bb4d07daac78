// The rules that take bit-vectors apart, join them or move their bits: each judges a step's
// literal, and returns the verdict on it.
#![tactic(auto, unfolding(theory::specs::Rule::verdict, theory::specs::Rule::on_sides))]

pub mod constants;
mod movement;
pub mod moves;
pub mod parts;
pub mod slicing;
