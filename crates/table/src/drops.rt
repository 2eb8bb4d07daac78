// Dropping the newest of the kept records.
ghost use Rattle.std.specs.Prelude.{◌≡◌, ◌+◌, ◌≤◌, length};
ghost use Rattle.theory.specs.Record.{number_length};
ghost use Rattle.table.specs.Buckets.{TableAs, Table, TableOf, dropped_row};
ghost use Rattle.table.specs.Promise.{Cut};

use super::buckets::Heads;
use super::lengths::{Lengths, Long, Short};
use rows::bytes::number_of;
use rows::{link_at, offset_as};
use terms::Term;

// Drops the rows from m up: of n kept records the first m stay. The newest row first: it is the
// head of its bucket, so that dropping it is one store.
fn drop_rows_as<N: Lengths>(job: &[u8], work: &mut [u8], n: usize, m: usize)
    requires kept { TableAs N.BYTES job.now work.old n }
    requires fewer { m ≤ n }
    ensures { Cut N.BYTES job.now work.old work.new n m }
{
    let heads = Heads::of::<N>(work.len());
    for k in (m..n).rev() {
        drop_row::<N>(job, work, k, heads);
    }
}

// The same in the job's own number length.
pub fn drop_rows(job: &[u8], work: &mut [u8], n: usize, m: usize)
    requires kept { Table job.now work.old n }
    requires fewer { m ≤ n }
    ensures { Cut (number_length job.now) job.now work.old work.new n m }
{
    if Term::number_length(job) == Term::NUMBER_BYTES {
        drop_rows_as::<Short>(job, work, n, m);
        return;
    }
    drop_rows_as::<Long>(job, work, n, m);
}

// Drops the last row, k: its bucket starts at the row before it.
fn drop_row<N: Lengths>(job: &[u8], work: &mut [u8], k: usize, heads: Heads)
    requires { TableOf N.LINK_BYTES job.now work.old (k + 1) heads.start heads.count }
    ensures { work.new ≡ dropped_row N.LINK_BYTES job.now work.old k heads.start heads.count }
{
    let at = offset_as(work, N::LINK_BYTES, k);
    let end = at + number_of::<{ Term::NUMBER_BYTES }>(job, at) + Term::NUMBER_BYTES;
    let j = heads.bucket(work, &job[at..end]);
    let before = link_at(work, N::LINK_BYTES, k);
    heads.put::<N>(work, j, before);
}
