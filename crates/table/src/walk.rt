// The walk through a bucket.
ghost use Rattle.std.specs.Prelude.{◌≡◌, ◌+◌, ◌≤◌, length, drop};
ghost use Rattle.theory.specs.Record.{extent};
ghost use Rattle.theory.specs.Term.{same_numbers};
ghost use Rattle.terms.specs.Framing.{record_at};
ghost use Rattle.rows.specs.Rows.{kept_as, place_of};
ghost use Rattle.table.specs.Buckets.{Sought, unless_missing};
ghost use Rattle.table.specs.Falls.{Falls};

use super::lengths::Lengths;
use rows::bytes::number_of;
use rows::layout::FIRST_PLACE;
use rows::{link_at, offset_as};
use terms::Term;

// Is the record at `at` in the job this one? Byte by byte from the last, where records differ most
// often.
#[inline]
fn is_record(job: &[u8], at: usize, wanted: &[u8]) -> bool
    requires { at + extent (drop at job.now) ≤ length job.now }
    ensures { result ≡ same_numbers wanted.now (record_at job.now at) }
{
    if number_of::<{ Term::NUMBER_BYTES }>(job, at) + Term::NUMBER_BYTES != wanted.len() {
        return false;
    }
    let kept = job[at..at + wanted.len()].iter().rev();
    kept.zip(wanted.iter().rev()).all(|(a, b)| a == b)
}

// The rows of a bucket, from the newest: `held` is one more than the next of them, or 0.
#[derive(Drop)]
struct Bucket<'a> {
    work: &'a [u8],
    link_bytes: usize,
    held: usize,
    ghost falls: { Falls link_bytes work.now held },
}

impl<'a> Iterator for Bucket<'a> {
    type Item = usize;

    ghost use Rattle.std.specs.Iterator.{at_most};
    ghost use Rattle.table.specs.Walk.{GivesNext};

    ghost next_gives = { GivesNext };

    ghost remaining = { λ s. at_most s.held };

    #[inline]
    fn next(&mut self) -> Option<usize> {
        if self.held == 0 {
            return None;
        }
        let row = self.held - 1;
        self.held = link_at(self.work, self.link_bytes, row);
        Some(row)
    }
}

// The place of a record among the first n rows: row by row of its bucket, whose newest is `first`.
#[inline]
pub fn walk<N: Lengths>(
    job: &[u8],
    work: &[u8],
    n: usize,
    first: usize,
    wanted: &[u8],
) -> Option<u32>
    requires { Sought N.LINK_BYTES job.now work.now n first wanted.now }
    ensures { result
        ≡ unless_missing (place_of wanted.now (kept_as N.LINK_BYTES job.now work.now n)) }
{
    let bucket = Bucket {
        work,
        link_bytes: N::LINK_BYTES,
        held: first,
    };
    for row in bucket {
        if is_record(job, offset_as(work, N::LINK_BYTES, row), wanted) {
            return Some((row + FIRST_PLACE) as u32);
        }
    }
    None
}
