// Separate chaining over the rows. A record's hash leads to a bucket; the bucket's head names its
// newest row, and each row's link the one before it. Heads stand after the rows, and the seed of
// the hash in the last bytes of the work memory.
ghost use Rattle.std.specs.Prelude.{◌≡◌, ◌+◌, ◌*◌, ◌-◌, ◌/◌, ◌≤◌, ◌<◌, length};
ghost use Rattle.theory.specs.Limit.{term_bytes};
ghost use Rattle.rows.specs.Layout.{Bounded};
ghost use Rattle.table.specs.Buckets.{most_rows, heads_start, most_heads, most_heads_of};
ghost use Rattle.table.specs.Buckets.{head_count, seed_bytes, fold, hash_end, hash_of};
ghost use Rattle.table.specs.Buckets.{bucket_of, first_in, first_of, stored_head};

use super::lengths::Lengths;
use rows::bytes::{number, number_of, put_number};
use rows::layout::{FIXED_BYTES, OFFSET_BYTES};
use terms::Term;

// The most heads of any table, and of one with short links: about twice the most terms.
const MOST_HEADS: usize = 2097152;

const SHORT_HEADS: usize = 131072;

// A record is its length, then its kind ..
pub const KIND_AT: usize = Term::NUMBER_BYTES;

// .. then its body.
pub const BODY_AT: usize = KIND_AT + Term::NUMBER_BYTES;

// The bytes of a word of the hash, and what is above every word.
const WORD_BYTES: usize = 2;

const WORD_END: usize = 65536;

// What is above every hash.
const HASH_END: usize = 2147483648;

// The bytes of the seed.
pub const SEED_BYTES: usize = 4;

// How many terms fit into a work memory of `len` bytes.
fn terms_in<N: Lengths>(len: usize) -> usize
    ensures { result ≡ len / term_bytes N.BYTES }
{
    len / (FIXED_BYTES + 2 * N::BYTES)
}

// How many rows it can ever hold.
#[tactic(auto, unfolding(crate::specs::Buckets::most_rows))]
fn most_rows<N: Lengths>(len: usize) -> usize
    ensures { result ≡ most_rows N.BYTES len }
{
    terms_in::<N>(len).min(Term::max_terms(N::BYTES))
}

// Where the heads start in a work memory of `len` bytes: after as many rows as it can ever hold.
fn heads_start<N: Lengths>(len: usize) -> usize
    ensures { (result ≡ heads_start N.BYTES len) × (result ≤ len) }
{
    most_rows::<N>(len) * (OFFSET_BYTES + 2 * N::LINK_BYTES)
}

// The most heads of a table, by the bytes of a link.
#[tactic(auto, using(std::proofs::lemmas::Bool::Decides::nat_tests), unfolding(crate::specs::Buckets::most_heads_of))]
fn most_heads<N: Lengths>() -> usize
    ensures { result ≡ most_heads_of N.LINK_BYTES }
{
    if N::LINK_BYTES == Term::NUMBER_BYTES {
        SHORT_HEADS
    } else {
        MOST_HEADS
    }
}

// How many heads there are.
fn head_count<N: Lengths>(len: usize, start: usize) -> usize
    requires { start ≤ len }
    ensures { result ≡ head_count N.LINK_BYTES len start }
{
    let left = len - start;
    if left < SEED_BYTES {
        return 0;
    }
    let heads = (left - SEED_BYTES) / N::LINK_BYTES;
    heads.min(most_heads::<N>())
}

// The same modulo 2 ^ 31 - 1, and not much above it: two shifts in place of a division.
fn fold(x: usize) -> usize
    ensures { result ≡ fold x }
{
    x % HASH_END + x / HASH_END
}

// A number made of a record's kind and body: the value at m of the polynomial that the whole words
// of the body are, with the kind's low byte above the first of them. The record's length is left
// out, since the number of words says it.
fn hash(m: usize, s: &[u8]) -> usize
    requires { m ≤ 1073741824 }
    ensures { Bounded result (hash_of m s.now) hash_end }
{
    if s.len() < BODY_AT {
        return 0;
    }
    let mut h: usize = usize::from(s[KIND_AT]) * WORD_END;
    for word in s[BODY_AT..].chunks_exact(WORD_BYTES) {
        h = fold((h + number_of::<WORD_BYTES>(word, 0)) * m);
    }
    h % HASH_END
}

// The heads of a work memory: where they start, and how many there are.
#[derive(Clone, Copy)]
pub struct Heads {
    pub start: usize,
    pub count: usize,
}

impl Heads {
    // Those of a work memory of `len` bytes.
    pub fn of<N: Lengths>(len: usize) -> Heads
        ensures start { result.start ≡ heads_start N.BYTES len }
        ensures count { result.count ≡ head_count N.LINK_BYTES len result.start }
        ensures inside { result.start ≤ len }
    {
        let start = heads_start::<N>(len);
        Heads {
            start,
            count: head_count::<N>(len, start),
        }
    }

    // The bucket of a record.
    pub fn bucket(self, work: &[u8], wanted: &[u8]) -> usize
        requires few { self.count ≤ most_heads }
        requires seeded { 0 < self.count → seed_bytes ≤ length work.now }
        ensures { result ≡ bucket_of work.now self.count wanted.now }
    {
        if self.count == 0 {
            return 0;
        }
        let seed = number_of::<SEED_BYTES>(work, work.len() - SEED_BYTES);
        hash((seed + 668265263) % 1073741824 + 1, wanted) * self.count / HASH_END
    }

    // One more than the newest row of bucket j, of n rows.
    pub fn first_in<N: Lengths>(self, work: &[u8], n: usize, j: usize) -> usize
        requires { 0 < self.count → self.start + self.count * N.LINK_BYTES ≤ length work.now }
        ensures { result ≡ first_in N.LINK_BYTES work.now n self.start self.count j }
    {
        if j < self.count {
            let len = N::LINK_BYTES;
            return number(work, self.start + j * len, len);
        }
        n
    }

    // Stores v in the head of bucket j, where there is one.
    pub fn put<N: Lengths>(self, work: &mut [u8], j: usize, v: usize)
        requires { 0 < self.count → self.start + self.count * N.LINK_BYTES ≤ length work.old }
        ensures { work.new ≡ stored_head N.LINK_BYTES work.old self.start self.count j v }
    {
        if j < self.count {
            let len = N::LINK_BYTES;
            put_number(work, self.start + j * len, len, v);
        }
    }
}

// One more than the newest row of a record's bucket, of n rows.
pub fn first_of<N: Lengths>(work: &[u8], n: usize, wanted: &[u8]) -> usize
    ensures { result ≡ first_of N.BYTES work.now n wanted.now }
{
    let heads = Heads::of::<N>(work.len());
    let j = heads.bucket(work, wanted);
    heads.first_in::<N>(work, n, j)
}
