// Records that change the kept terms: a term and a back.
ghost use Rattle.std.specs.Prelude.{ℕ};
ghost use Rattle.theory.specs.Limit as L;
ghost use Rattle.theory.specs.Record.{Bytes};
ghost use Rattle.terms.specs.declared.Item.TheVariants as I;
ghost use Rattle.intern.specs.Interning.{limits_of};
ghost use Rattle.records.specs.Turning.{Reading, Turned};

use crate::{Position, Turn};
use intern::{Interned, Limits, back, intern};
use rows::FIRST_PLACE;
use terms::Term;
use terms::stop::Stop;

// A term: `NoTerm` where an argument is not kept; else `intern` is offered it. No other record
// knows limits.
pub(crate) fn term_record(
    here: &Position,
    work: &mut [u8],
    limits: Limits,
    term: Term,
) -> Result<Turn, Stop>
    requires { Reading here.now.job.now work.old here.now.rows here.now.at (I.Term term) }
    ensures { (place : ℕ) (answers : Bytes)
        → Turned (limits_of limits) place here.now.job.now work.old answers
        here.now.rows here.now.answered here.now.at work.new answers result }
{
    if !term.below(here.job, (here.rows + FIRST_PLACE) as u32) {
        return Err(Stop::NoTerm);
    }
    let kept = intern(here.job, work, here.rows, limits, here.at, term)?;
    match kept {
        Interned::Found(n) => Ok(here.unanswered(n, 1)),
        Interned::New(n) => Ok(here.unanswered(n, 0)),
    }
}

// A back: `NoBack` where its count is below 2 or above the number of terms.
pub(crate) fn back_record(here: &Position, work: &mut [u8], count: u32) -> Result<Turn, Stop>
    requires { Reading here.now.job.now work.old here.now.rows here.now.at (I.Back count) }
    ensures { (limits : L.Limits) (place : ℕ) (answers : Bytes)
        → Turned limits place here.now.job.now work.old answers
        here.now.rows here.now.answered here.now.at work.new answers result }
{
    let n = count as usize;
    if n < FIRST_PLACE || here.rows + FIRST_PLACE < n {
        return Err(Stop::NoBack);
    }
    back(here.job, work, here.rows, n);
    Ok(here.unanswered(n - FIRST_PLACE, 0))
}
