// Records that a caller names by their arguments: built in an array, and looked up.
ghost use Rattle.std.specs.Prelude.{◌≡◌, [], ◌∷◌, ◌≤◌, length};
ghost use Rattle.theory.specs.Limit.{max_arguments, long_bytes};
ghost use Rattle.table.specs.Lent.{kept_over, list_place};
ghost use Rattle.table.specs.LookedUp.{looked_up};
ghost use Rattle.table.specs.Buckets.{TableAs, Table, unless_missing};
ghost use Rattle.table.specs.Keys.{list_bytes, Roomy, Built, place_list};

use super::buckets::{BODY_AT, KIND_AT};
use super::kept::KeptRecords;
use super::keys::{KEY_BYTES, last_number};
use super::lengths::{Lengths, Long, Short};
use rows::bytes::{put_number, put_number_of};
use rows::layout::MISSING;
use terms::Term;

// An array that is long enough for the most arguments.
const LIST_BYTES: usize = BODY_AT + Term::LONG_BYTES * Term::MAX_ARGUMENTS;

// Builds the record of a kind with arguments in the array lent, and returns its length. None where
// an argument is no place: it is above what the bytes of a number hold, or the last number that
// they hold, which stands for no place.
fn build_key<N: Lengths>(kind: u32, args: &[u32], key: &mut [u8]) -> Option<usize>
    requires { Roomy N.BYTES (length args.now) (length key.old) }
    ensures { Built N.BYTES kind args.now (length key.old) key.new result }
{
    let limit = last_number::<N>();
    let len = Term::NUMBER_BYTES + args.len() * N::BYTES;
    put_number_of::<{ Term::NUMBER_BYTES }>(key, 0, len);
    put_number_of::<{ Term::NUMBER_BYTES }>(key, KIND_AT, kind as usize);
    let mut at = BODY_AT;
    for &arg in args {
        let x = arg as usize;
        if limit <= x {
            return None;
        }
        put_number(key, at, N::BYTES, x);
        at += N::BYTES;
    }
    Some(at)
}

impl<'a, N: Lengths> KeptRecords<'a, N> {
    // The place of the record of a kind with arguments, which is built in an array of S bytes. Each
    // instance is compiled for its lengths: that of short numbers into the loops over a circuit's
    // gates, since steps look up little else.
    #[inline]
    fn find_built<const S: usize>(&self, kind: u32, args: &[u32]) -> Option<u32>
        requires roomy { Roomy N.BYTES (length args.now) S }
        requires bounded { S ≤ list_bytes }
        ensures { result ≡ unless_missing (place_list N.BYTES kind args.now (looked_up self.now)) }
    {
        let mut key = [0u8; S];
        let end = build_key::<N>(kind, args, &mut key)?;
        self.find(&key[..end])
    }
}

// The place of the record of a kind with 0 to 64 arguments, of the job's own number length, or
// MISSING.
pub fn find_list(job: &[u8], work: &[u8], n: usize, kind: u32, args: &[u32]) -> u32
    requires kept { Table job.now work.now n }
    requires few { length args.now ≤ max_arguments }
    ensures { result ≡ list_place job work n kind args.now }
{
    find_arguments::<LIST_BYTES>(job, work, n, kind, args)
}

// The same in an array of S bytes, which is long enough. A call for each of the two lengths: each
// is then compiled for its own.
#[inline]
fn find_arguments<const S: usize>(job: &[u8], work: &[u8], n: usize, kind: u32, args: &[u32]) -> u32
    requires kept { Table job.now work.now n }
    requires roomy { Roomy long_bytes (length args.now) S }
    requires bounded { S ≤ list_bytes }
    ensures { result ≡ list_place job work n kind args.now }
{
    if Term::number_length(job) == Term::NUMBER_BYTES {
        let place = KeptRecords::<Short>::new(job, work, n).find_built::<S>(kind, args);
        return place.unwrap_or(MISSING);
    }
    find_long::<S>(job, work, n, kind, args).unwrap_or(MISSING)
}

// The same where numbers are long. A function of its own: what is lent is then copied in it alone.
#[inline(never)]
fn find_long<const S: usize>(
    job: &[u8],
    work: &[u8],
    n: usize,
    kind: u32,
    args: &[u32],
) -> Option<u32>
    requires kept { TableAs long_bytes job.now work.now n }
    requires roomy { Roomy long_bytes (length args.now) S }
    requires bounded { S ≤ list_bytes }
    ensures { result ≡ unless_missing
        (place_list long_bytes kind args.now (kept_over long_bytes job.now work.now n)) }
{
    KeptRecords::<Long>::new(job, work, n).find_built::<S>(kind, args)
}

// The place of the record of a kind with one argument.
pub fn find_one(job: &[u8], work: &[u8], n: usize, kind: u32, a: u32) -> u32
    requires { Table job.now work.now n }
    ensures { result ≡ list_place job work n kind (a ∷ []) }
{
    find_arguments::<KEY_BYTES>(job, work, n, kind, &[a])
}

// The place of the record of a kind with two arguments.
pub fn find_two(job: &[u8], work: &[u8], n: usize, kind: u32, a: u32, b: u32) -> u32
    requires { Table job.now work.now n }
    ensures { result ≡ list_place job work n kind (a ∷ b ∷ []) }
{
    find_arguments::<KEY_BYTES>(job, work, n, kind, &[a, b])
}

// The place of the record of a kind with three arguments.
pub fn find_three(job: &[u8], work: &[u8], n: usize, kind: u32, a: u32, b: u32, c: u32) -> u32
    requires { Table job.now work.now n }
    ensures { result ≡ list_place job work n kind (a ∷ b ∷ c ∷ []) }
{
    find_arguments::<KEY_BYTES>(job, work, n, kind, &[a, b, c])
}
