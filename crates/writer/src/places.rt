// What a job is written into, and the terms and steps put there.
ghost use Rattle.std.specs.Prelude.{◌≡◌, ◌+◌, ◌≤◌, ◌<◌, length};
ghost use Rattle.std.proofs.lemmas.List.Edits.{sets};
ghost use Rattle.theory.specs.Limit.{first_terms, number_bytes, max_terms, max_arguments};
ghost use Rattle.theory.specs.Record.{kind_of, step_kind};
ghost use Rattle.theory.proofs.Facts.{kept_facts};
ghost use Rattle.text.specs.Writing.{Lone, kept, place_from, keep, put_term, put_step};
ghost use Rattle.text.specs.Writing.{placed, placed_all};
ghost use Rattle.text.proofs.Facts.{Clean-prop};
ghost use Rattle.names.specs.Kinds.{op_of};
ghost use Rattle.writer.specs.Places.{Ready, Longer, Grows};

use super::encode::{STEP_BYTES, encode, store_step};
use super::records::Records;
use names::kinds::Operator;
use rows::FIRST_PLACE;
use rows::layout::OFFSET_BYTES;
use table::{Added, Short, add_record, find_record};
use terms::Term;

// The longest part of a job that rows can cover, in bytes: the offset in a row has three.
const MAX_COVERED: usize = 1 << (8 * OFFSET_BYTES);

// Where the job stands: its bytes and its terms, `true` and `false` not counted; how many of
// these, the first ones, have a row in the work memory, and the bytes of the job up to the last
// of them.
#[derive(Clone, Copy)]
pub struct Spot {
    pub done: usize,
    pub terms: usize,
    pub rows: usize,
    pub covered: usize,
}

// What a job is written into: a memory for its bytes, a work memory for its rows, and where the
// job stands in them.
#[derive(Drop)]
pub struct Writer<'a> {
    pub out: &'a mut [u8],
    pub work: &'a mut [u8],
    pub spot: Spot,
    pub ghost ready: { Ready out.now work.now spot } by { Prim.hlevel (Clean-prop, kept_facts) },
}

// The number of the term whose record equals `wanted`, the first of the job having the number
// `first`: a walk over the records, in which steps have no number.
fn walk_records(job: &[u8], first: usize, wanted: &[u8]) -> Option<usize>
    requires { first ≤ max_terms number_bytes }
    ensures { result ≡ place_from first wanted.now (kept job.now) }
{
    let records = Records { rest: job };
    let place = records
        .filter(|record| Term::number(record, Term::KIND_AT) != Term::STEP_KIND)
        .position(|record| wanted == record)?;
    Some(first + place)
}

// Where the job stands with the term whose record is put at its end, up to `end`. It gets a row
// where every term before it has one, there is room for it, and its offset fits into a row.
fn cover(out: &[u8], work: &mut [u8], spot: Spot, end: usize) -> Spot
    requires { Longer out.now work.old spot end }
    ensures { Grows out.now work.new end result }
{
    let terms = spot.terms + 1;
    let plain = Spot {
        done: end,
        terms,
        ..spot
    };
    if spot.rows != spot.terms {
        return plain;
    }
    if MAX_COVERED < end {
        return plain;
    }
    let Some(added) = add_record::<Short>(
        &out[..end],
        work,
        spot.rows,
        Term::MAX_TERMS,
        spot.done,
        0,
    ) else {
        return plain;
    };
    match added {
        Added::Found(_) => plain,
        Added::New(_) => Spot {
            done: end,
            terms,
            rows: terms,
            covered: end,
        },
    }
}

// Copies bytes to `at`. It is a loop of its own: the kit's copy of a slice would have the archive
// want memmove from outside.
#[tactic(auto, using(crate::proofs::PlaceLaws::copy_turn, crate::proofs::PlaceLaws::copy_end))]
fn copy(out: &mut [u8], at: usize, bytes: &[u8])
    requires { at + length bytes.now ≤ length out.old }
    ensures { out.new ≡ sets out.old at bytes.now }
{
    let mut i = 0;
    while i < bytes.len() {
        out[at + i] = bytes[i];
        i += 1;
    }
}

// Puts a term's record at the end of the job, and returns where the job stands then.
fn append(bytes: &[u8], out: &mut [u8], work: &mut [u8], spot: Spot) -> Spot
    requires ready { Ready out.old work.old spot }
    requires fits { spot.done + length bytes.now ≤ length out.old }
    requires lone { Lone bytes.now }
    requires low { kind_of bytes.now < step_kind }
    ensures put { out.new ≡ sets out.old spot.done bytes.now }
    ensures grows { Grows out.new work.new (spot.done + length bytes.now) result }
{
    let done = spot.done;
    let end = done + bytes.len();
    copy(out, done, bytes);
    cover(out, work, spot, end)
}

impl<'a> Writer<'a> {
    ghost use Rattle.writer.specs.Written.{job_of, room, Moved, told_put, told_job};

    // The number of the term whose record equals `wanted`: by the table over the rows, then by a
    // walk over the records after those that have one.
    fn find_term(&self, wanted: &[u8]) -> Option<usize>
        ensures { result ≡ place_from first_terms wanted.now (kept (job_of self.now)) }
    {
        let spot = self.spot;
        if let Some(place) = find_record::<Short>(
            &self.out[..spot.covered],
            self.work,
            spot.rows,
            wanted,
        ) {
            return Some(place as usize);
        }
        walk_records(
            &self.out[spot.covered..spot.done],
            spot.rows + FIRST_PLACE,
            wanted,
        )
    }

    // Puts a term's record at the end, unless an equal one is there, and returns the term's number;
    // none where it does not fit.
    fn keep(&mut self, bytes: &[u8]) -> Option<usize>
        requires lone { Lone bytes.now }
        requires low { kind_of bytes.now < step_kind }
        ensures moved { Moved self.old self.new }
        ensures puts { told_put self.new result
            ≡ keep (room self.old) bytes.now (job_of self.old) }
    {
        if let Some(number) = self.find_term(bytes) {
            return Some(number);
        }
        let spot = self.spot;
        if self.out.len() - spot.done < bytes.len() {
            return None;
        }
        self.spot = append(bytes, self.out, self.work, spot);
        Some(spot.terms + FIRST_PLACE)
    }

    // Puts a term of that operator with these arguments, unless an equal one is there, and returns
    // its number; none where it does not fit. `true` and `false` have no record: they are terms 0
    // and 1.
    pub fn put_term(&mut self, operator: Operator, numbers: &[u16]) -> Option<usize>
        requires few { length numbers.now ≤ max_arguments }
        ensures moved { Moved self.old self.new }
        ensures puts { told_put self.new result
            ≡ put_term (room self.old) (op_of operator) (placed_all numbers.now (job_of self.old)) }
    {
        let (kind, x, y) = match operator {
            Operator::True => return Some(0),
            Operator::False => return Some(1),
            Operator::Of(kind, x, y) => (kind, x, y),
        };
        self.keep(encode(kind, x, y, numbers).as_slice())
    }

    // Puts a step with one literal; none where it does not fit, or where the literal's number has
    // more than two bytes.
    pub fn put_step(&mut self, rule: u32, literal: usize) -> Option<()>
        ensures moved { Moved self.old self.new }
        ensures puts { told_job self.new result
            ≡ put_step (room self.old) rule (placed literal (job_of self.old)) }
    {
        let number = u16::try_from(literal).ok()?;
        let done = self.spot.done;
        if self.out.len() - done < STEP_BYTES {
            return None;
        }
        store_step(self.out, done, rule, number);
        self.spot.done += STEP_BYTES;
        Some(())
    }
}
