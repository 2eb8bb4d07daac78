// Records that a caller names by parts of known sizes, an index or a value: built in an array, and
// looked up.
ghost use Rattle.std.specs.Prelude.{◌≡◌, ◌+◌, ◌++◌, ◌≤◌, length};
ghost use Rattle.theory.specs.Limit.{number_bytes, value_bytes};
ghost use Rattle.theory.specs.Record.{bytes_of};
ghost use Rattle.rows.specs.Rows.{place_of};
ghost use Rattle.table.specs.Lent.{indexed_place, constant_place};
ghost use Rattle.table.specs.LookedUp.{looked_up};
ghost use Rattle.table.specs.Buckets.{Table, unless_missing};
ghost use Rattle.table.specs.Keys.{key_bytes, last_number, record_of};
ghost use Rattle.table.specs.Keys.{place_indexed, place_constant};

use super::buckets::BODY_AT;
use super::kept::KeptRecords;
use super::lengths::{Lengths, Long, Short};
use arrayvec::ArrayVec;
use rows::layout::MISSING;
use terms::Term;

// So few arguments fit into a short array ..
const FEW_ARGUMENTS: usize = 3;

// .. which is long enough for a number and a value too, or an index and an argument.
pub const KEY_BYTES: usize = BODY_AT + Term::LONG_BYTES * FEW_ARGUMENTS;

// The last number that the bytes of a term's number hold: it stands for no place.
pub fn last_number<N: Lengths>() -> usize
    ensures { result ≡ last_number N.BYTES }
{
    (1 << (8 * N::BYTES)) - 1
}

// Appends a number of two bytes to a record.
#[inline]
#[tactic(auto, using(crate::proofs::KeyLaws::low_bytes))]
fn append_number(key: &mut ArrayVec<u8, KEY_BYTES>, x: u32)
    requires { length key.old.items + number_bytes ≤ key_bytes }
    ensures { key.new.items ≡ key.old.items ++ bytes_of number_bytes x }
{
    key.try_extend_from_slice(&x.to_le_bytes()[..Term::NUMBER_BYTES])
        .unwrap();
}

impl<'a, N: Lengths> KeptRecords<'a, N> {
    // The place of the record of a kind whose body is the number `first`, in two bytes, and after
    // it the bytes `last`.
    #[inline]
    #[tactic(auto, unfolding(crate::specs::Keys::record_of))]
    fn find_numbered(&self, kind: u32, first: u32, last: &[u8]) -> Option<u32>
        requires { length last.now ≤ value_bytes }
        ensures { result ≡ unless_missing (place_of
            (record_of kind (bytes_of number_bytes first ++ last.now)) (looked_up self.now)) }
    {
        let mut key = ArrayVec::new();
        let len = 2 * Term::NUMBER_BYTES + last.len();
        append_number(&mut key, len as u32);
        append_number(&mut key, kind);
        append_number(&mut key, first);
        key.try_extend_from_slice(last).unwrap();
        self.find(key.as_slice())
    }

    // The place of the record of a kind with an index and one argument.
    fn find_indexed(&self, kind: u32, index: u32, a: u32) -> Option<u32>
        ensures { result ≡ unless_missing
            (place_indexed N.BYTES kind index a (looked_up self.now)) }
    {
        if last_number::<N>() <= a as usize {
            return None;
        }
        self.find_numbered(kind, index, &a.to_le_bytes()[..N::BYTES])
    }

    // The place of the record of a kind with a number and a value of eight bytes: a constant, by
    // its width and value.
    #[tactic(auto, using(crate::proofs::KeyLaws::constant_is))]
    fn find_constant(&self, kind: u32, width: u32, value: u64) -> Option<u32>
        ensures { result ≡ unless_missing (place_constant kind width value (looked_up self.now)) }
    {
        self.find_numbered(kind, width, &value.to_le_bytes())
    }
}

// The same in the job's own number length, or MISSING. A call for each of the two: each is then
// compiled for its length.
pub fn find_indexed(job: &[u8], work: &[u8], n: usize, kind: u32, index: u32, a: u32) -> u32
    requires { Table job.now work.now n }
    ensures { result ≡ indexed_place job work n kind index a }
{
    let place = if Term::number_length(job) == Term::NUMBER_BYTES {
        KeptRecords::<Short>::new(job, work, n).find_indexed(kind, index, a)
    } else {
        KeptRecords::<Long>::new(job, work, n).find_indexed(kind, index, a)
    };
    place.unwrap_or(MISSING)
}

// The same in the job's own number length, or MISSING. A call for each of the two: each is then
// compiled for its length.
pub fn find_constant(job: &[u8], work: &[u8], n: usize, kind: u32, width: u32, value: u64) -> u32
    requires { Table job.now work.now n }
    ensures { result ≡ constant_place job work n kind width value }
{
    let place = if Term::number_length(job) == Term::NUMBER_BYTES {
        KeptRecords::<Short>::new(job, work, n).find_constant(kind, width, value)
    } else {
        KeptRecords::<Long>::new(job, work, n).find_constant(kind, width, value)
    };
    place.unwrap_or(MISSING)
}
