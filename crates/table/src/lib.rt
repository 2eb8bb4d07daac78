// The records that a job keeps, in work memory that a caller lends: found, added and dropped by
// buckets over their rows.
//
// Callers say how many rows there are and hold the invariant `Table` (specs/Buckets.antt), which
// `clear` sets up and `add` and `drop_rows` keep.
//
// To read: lengths (of numbers), buckets and walk (the table), kept (find, add), drops (drop),
// lists and keys (records given by their parts), memory (clearing).
#![tactic(auto, using(crate::proofs::Sets::laws))]

mod buckets;
mod drops;
mod kept;
mod keys;
mod lengths;
mod lists;
mod memory;
mod walk;

pub use drops::drop_rows;
pub use kept::{Added, add, add_record, find_record};
pub use keys::{find_constant, find_indexed};
pub use lengths::{Lengths, Long, Short};
pub use lists::{find_list, find_one, find_three, find_two};
pub use memory::{carry_seed, clear, wipe};
