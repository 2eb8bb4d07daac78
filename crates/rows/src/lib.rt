// The rows of the work memory, each of them for a record that the job keeps.
//
// A record stands in the job and stays there; the work memory has a row for each kept record, in
// the order in which they came. Row k has place 2 + k, since places 0 and 1 are `true` and `false`.
// Callers say how many rows there are, and the bytes of a link: a row has two such numbers, its
// measure (the depth of its term, or its width) and a link to an earlier row.
//
// To read: layout (sizes), bytes (numbers), and here the parts of a row.
#![tactic(auto)]

pub mod bytes;
pub mod layout;

ghost use Rattle.std.specs.Prelude.{◌≡◌, ◌+◌, ◌*◌, ◌^◌, ◌≤◌, length};
ghost use Rattle.theory.specs.Limit.{max_job};
ghost use Rattle.terms.specs.Bodies.{Length};
ghost use Rattle.rows.specs.Layout.{Bounded, link_bytes, link_size, row_size};
ghost use Rattle.rows.specs.Layout.{offset_at, measure_at, link_at};
ghost use Rattle.rows.specs.Rows.{stored_row};

use crate::bytes::{number, number_of, put_number, put_number_of};
use crate::layout::{LONG_LINK_BYTES, OFFSET_BYTES};
pub use layout::{FIRST_PLACE, MISSING};
use terms::Term;

// The bytes of a link, by the bytes of a term's number: three can count the most terms.
#[tactic(auto, using(std::proofs::lemmas::Bool::Decides::nat_tests), unfolding(crate::specs::Layout::link_bytes))]
pub fn link_bytes(bytes: usize) -> usize
    ensures { result ≡ link_bytes bytes }
{
    if bytes == Term::LONG_BYTES {
        LONG_LINK_BYTES
    } else {
        bytes
    }
}

// Where row k's record stands in the job, where a link has `len` bytes. A caller that knows the
// length is compiled for it, here and below.
#[tactic(auto, unfolding(crate::specs::Layout::offset_at))]
#[inline]
pub fn offset_as(work: &[u8], len: usize, k: usize) -> usize
    requires inside { k * row_size len + row_size len ≤ length work.now }
    requires sized { Length len }
    ensures { Bounded result (offset_at len work.now k) max_job }
{
    number_of::<OFFSET_BYTES>(work, k * (OFFSET_BYTES + 2 * len))
}

// The measure of row k.
#[tactic(auto, unfolding(crate::specs::Layout::measure_at))]
#[inline]
pub fn measure_as(work: &[u8], len: usize, k: usize) -> usize
    requires inside { k * row_size len + row_size len ≤ length work.now }
    requires sized { Length len }
    ensures { Bounded result (measure_at len work.now k) (256 ^ len) }
{
    number(work, k * (OFFSET_BYTES + 2 * len) + OFFSET_BYTES, len)
}

// The link of row k: 0, or one more than the index of an earlier row.
#[tactic(auto, unfolding(crate::specs::Layout::link_at))]
#[inline]
pub fn link_at(work: &[u8], len: usize, k: usize) -> usize
    requires inside { k * row_size len + row_size len ≤ length work.now }
    requires sized { Length len }
    ensures { Bounded result (link_at len work.now k) (256 ^ len) }
{
    number(work, k * (OFFSET_BYTES + 2 * len) + OFFSET_BYTES + len, len)
}

// Stores row n.
#[tactic(auto, using(crate::proofs::RowLaws::stored_parts))]
#[inline]
pub fn put_row(work: &mut [u8], len: usize, n: usize, offset: usize, measure: usize, link: usize)
    requires inside { n * row_size len + row_size len ≤ length work.old }
    requires sized { Length len }
    ensures { work.new ≡ stored_row len work.old n offset measure link }
{
    let at = n * (OFFSET_BYTES + 2 * len);
    put_number_of::<OFFSET_BYTES>(work, at, offset);
    put_number(work, at + OFFSET_BYTES, len, measure);
    put_number(work, at + OFFSET_BYTES + len, len, link);
}

// Where row k's record stands, in the job's own number length.
#[tactic(auto, using(terms::proofs::Numbers::length_of, crate::proofs::RowLaws::link_sized))]
pub fn offset_at(job: &[u8], work: &[u8], k: usize) -> usize
    requires { k * row_size (link_size job.now) + row_size (link_size job.now) ≤ length work.now }
    ensures { Bounded result (offset_at (link_size job.now) work.now k) max_job }
{
    offset_as(work, link_bytes(Term::number_length(job)), k)
}
