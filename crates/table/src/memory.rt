// Clearing the work memory.
ghost use Rattle.std.specs.Prelude.{◌≡◌, ◌≤◌, length};
ghost use Rattle.table.specs.Promise.{Cleared, carried, Wiped};

use super::buckets::SEED_BYTES;
use rows::bytes::{number_of, put_number_of};

// Sets every byte to zero but the last four, the seed: no row, and no trace of a job.
pub fn clear(work: &mut [u8])
    ensures { Cleared work.old work.new }
{
    if work.len() < SEED_BYTES {
        return;
    }
    let end = work.len() - SEED_BYTES;
    work[..end].fill(0);
}

// Puts the seed, the last four bytes, at the end of the first n too: these are the memory that a
// job gets.
pub fn carry_seed(work: &mut [u8], n: usize)
    requires { n ≤ length work.old }
    ensures { work.new ≡ carried work.old n }
{
    if n < SEED_BYTES {
        return;
    }
    let seed = number_of::<SEED_BYTES>(work, work.len() - SEED_BYTES);
    put_number_of::<SEED_BYTES>(work, n - SEED_BYTES, seed);
}

// Sets every byte to zero, the seed's too.
pub fn wipe(work: &mut [u8])
    ensures { Wiped work.old work.new }
{
    work.fill(0);
}
