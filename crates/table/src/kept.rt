// The kept records: find one, add one.
ghost use Rattle.std.specs.Prelude.{◌≡◌, ◌+◌, ◌*◌, ◌^◌, ◌≤◌, ◌<◌, length, drop};
ghost use Rattle.theory.specs.Limit.{first_terms};
ghost use Rattle.theory.specs.Record.{extent, number_length};
ghost use Rattle.rows.specs.Layout.{link_bytes, row_size};
ghost use Rattle.rows.specs.Rows.{place_of};
ghost use Rattle.table.specs.Lent.{kept_over};
ghost use Rattle.table.specs.Buckets.{TableAs, Table, added_row, unless_missing};
ghost use Rattle.table.specs.Promise.{TermLimit, room_for, Grown};

use super::buckets::{Heads, first_of};
use super::lengths::{Lengths, Long, Short};
use super::walk::walk;
use rows::bytes::number_of;
use rows::layout::{FIRST_PLACE, FIXED_BYTES};
use rows::put_row;
use std::marker::PhantomData;
use terms::Term;

// A job's bytes, the memory it lends, and how many rows are kept in it: the records that are looked
// up, where numbers are as long as N says.
#[derive(Drop)]
pub struct KeptRecords<'a, N: Lengths> {
    job: &'a [u8],
    work: &'a [u8],
    rows: usize,
    numbers: PhantomData<N>,
    ghost table: { TableAs N.BYTES job.now work.now rows },
}

impl<'a, N: Lengths> KeptRecords<'a, N> {
    ghost use Rattle.table.specs.LookedUp.{looked_up};

    // Those of the first `rows` rows, where the buckets over these are right.
    #[inline]
    pub fn new(job: &'a [u8], work: &'a [u8], rows: usize) -> KeptRecords<'a, N>
        requires { TableAs N.BYTES job.now work.now rows }
        ensures { looked_up result ≡ kept_over N.BYTES job.now work.now rows }
    {
        KeptRecords {
            job,
            work,
            rows,
            numbers: PhantomData,
        }
    }

    // The place of the record `wanted`.
    #[inline]
    pub fn find(&self, wanted: &[u8]) -> Option<u32>
        ensures { result ≡ unless_missing (place_of wanted.now (looked_up self.now)) }
    {
        let first = first_of::<N>(self.work, self.rows, wanted);
        walk::<N>(self.job, self.work, self.rows, first, wanted)
    }
}

// The place of the record `wanted` among n kept ones.
#[inline]
pub fn find_record<N: Lengths>(job: &[u8], work: &[u8], n: usize, wanted: &[u8]) -> Option<u32>
    requires { TableAs N.BYTES job.now work.now n }
    ensures { result ≡ unless_missing (place_of wanted.now (kept_over N.BYTES job.now work.now n)) }
{
    KeptRecords::<N>::new(job, work, n).find(wanted)
}

// What adding a record answers: the place of the kept record that equals it, or that of the new
// row.
#[derive(Clone, Copy, Debug, PartialEq, Eq)]
pub enum Added {
    Found(u32),
    New(u32),
}

// Is there memory and a place for one row more than n, where there may be `limit` terms?
fn has_room<N: Lengths>(n: usize, limit: usize, len: usize) -> bool
    requires { first_terms + n < 4294967296 }
    ensures { result ≡ room_for N.BYTES limit n len }
{
    if Term::max_terms(N::BYTES) <= n + FIRST_PLACE {
        return false;
    }
    if limit <= n + FIRST_PLACE {
        return false;
    }
    let cost = FIXED_BYTES + 2 * N::BYTES;
    n * cost + cost <= len
}

// Adds the record that stands at `at` in the job to n kept ones, with its measure, unless one of
// them equals it; none where there is no room. There may be `limit` terms; above the rack's limit
// it is the rack's. Copied into its callers: its arguments and its result then stay in registers
// (docs/PERFORMANCE.md).
#[inline(always)]
pub fn add_record<N: Lengths>(
    job: &[u8],
    work: &mut [u8],
    n: usize,
    limit: usize,
    at: usize,
    measure: usize,
) -> Option<Added>
    requires kept { TableAs N.BYTES job.now work.old n }
    requires limited { TermLimit N.BYTES }
    requires inside { at + extent (drop at job.now) ≤ length job.now }
    requires measured { measure < 256 ^ link_bytes N.BYTES }
    ensures { Grown N.BYTES job.now work.old work.new n limit at measure result }
{
    let end = at + number_of::<{ Term::NUMBER_BYTES }>(job, at) + Term::NUMBER_BYTES;
    let heads = Heads::of::<N>(work.len());
    let j = heads.bucket(work, &job[at..end]);
    let first = heads.first_in::<N>(work, n, j);
    if let Some(place) = walk::<N>(job, work, n, first, &job[at..end]) {
        return Some(Added::Found(place));
    }
    if !has_room::<N>(n, limit, work.len()) {
        return None;
    }
    add_row::<N>(work, n, heads, j, at, measure, first);
    Some(Added::New((n + FIRST_PLACE) as u32))
}

// The same in the job's own number length. A call for each of the two: each is then compiled for
// its length.
pub fn add(
    job: &[u8],
    work: &mut [u8],
    n: usize,
    limit: usize,
    at: usize,
    measure: usize,
) -> Option<Added>
    requires kept { Table job.now work.old n }
    requires inside { at + extent (drop at job.now) ≤ length job.now }
    requires measured { measure < 256 ^ link_bytes (number_length job.now) }
    ensures { Grown (number_length job.now) job.now work.old work.new
        n limit at measure result }
{
    if Term::number_length(job) == Term::NUMBER_BYTES {
        return add_record::<Short>(job, work, n, limit, at, measure);
    }
    add_record::<Long>(job, work, n, limit, at, measure)
}

// Stores row n before the row `first` of bucket j.
fn add_row<N: Lengths>(
    work: &mut [u8],
    n: usize,
    heads: Heads,
    j: usize,
    offset: usize,
    measure: usize,
    first: usize,
)
    requires inside { n * row_size N.LINK_BYTES + row_size N.LINK_BYTES ≤ length work.old }
    requires cells { 0 < heads.count
        → heads.start + heads.count * N.LINK_BYTES ≤ length work.old }
    requires few { n < 4294967296 }
    ensures { work.new
        ≡ added_row N.LINK_BYTES work.old n heads.start heads.count j offset measure first }
{
    put_row(work, N::LINK_BYTES, n, offset, measure, first);
    heads.put::<N>(work, j, n + 1);
}
