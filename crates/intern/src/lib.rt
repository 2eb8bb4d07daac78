// Keeps and drops terms: the store is emptied at the start of a job, grown by a record's term, and
// cut back to a count of terms.
#![tactic(auto)]

pub mod arguments;
mod guards;
mod kinds;

ghost use Rattle.std.specs.Prelude.{◌+◌, ◌≤◌, length};
ghost use Rattle.theory.specs.Limit.{first_terms, max_job};
ghost use Rattle.store.specs.Store.{Store};
ghost use Rattle.intern.specs.Interning.{Started, CutBack, limits_of, Offered, Taken};

use crate::guards::fits_within;
use crate::kinds::sort_and_depth;
use rows::bytes::number;
use store::gates::Kept;
use store::measures::measure_in;
use store::sorts::width_of;
use table::Added;
use terms::Term;
use terms::stop::Stop;

// What a caller states: the greatest width of a bit-vector, and the greatest number of terms,
// `true` and `false` counted. Above the rack's they are the rack's.
#[derive(Clone, Copy)]
pub struct Limits {
    pub width: u32,
    pub terms: u32,
}

// A record's term that is kept, already or newly, and how many rows there are then.
#[derive(Clone, Copy, Debug, PartialEq, Eq)]
pub enum Interned {
    Found(usize),
    New(usize),
}

// Empties the work memory, but for its seed: `true` and `false` are the only terms.
pub fn start(job: &[u8], work: &mut [u8])
    requires { length job.now ≤ max_job }
    ensures { Started job.now work.old work.new }
{
    table::clear(work);
}

// Drops the terms from place `count` on: the first `count` stay, `true` and `false` counted.
pub fn back(job: &[u8], work: &mut [u8], n: usize, count: usize)
    requires kept { Store job.now work.old n }
    requires some { first_terms ≤ count }
    requires within { count ≤ first_terms + n }
    ensures { CutBack job.now work.old work.new n count }
{
    table::drop_rows(job, work, n, count - rows::FIRST_PLACE);
}

// Keeps the term that the record at `at` says, unless it is kept already. It stops with Unsorted
// where the term has no sort or is too wide, and with Spent where there is no room for it. The
// limit of terms is for new ones alone, so the table tests it.
pub fn intern(
    job: &[u8],
    work: &mut [u8],
    n: usize,
    limits: Limits,
    at: usize,
    term: Term,
) -> Result<Interned, Stop>
    requires { Offered job.now work.old n at term }
    ensures { Taken (limits_of limits) job.now work.old work.new n at term result }
{
    let kept = Kept::new(job, work, n);
    let found = sort_and_depth(&kept, term).ok_or(Stop::Unsorted)?;
    if !fits_within(found.sort, limits.width) {
        return Err(Stop::Unsorted);
    }
    let width = width_of(found.sort) as usize;
    let kind = number(job, at + Term::NUMBER_BYTES, Term::NUMBER_BYTES);
    let measure = measure_in(kind, found.depth, width);
    let limit = limits.terms as usize;
    let added = table::add(job, work, n, limit, at, measure).ok_or(Stop::Spent)?;
    Ok(match added {
        Added::Found(_) => Interned::Found(n),
        Added::New(_) => Interned::New(n + 1),
    })
}
