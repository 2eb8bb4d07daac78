// What a record says: a term, a step, a chain or a back.
ghost use Rattle.std.specs.Prelude.{◌≡◌, true, ◌+◌, ◌≤◌, length, drop};
ghost use Rattle.theory.specs.Record.{whole, shape_of, number_length};
ghost use Rattle.theory.specs.Record.{read, read_term, read_step, read_chain, read_back};
ghost use Rattle.terms.specs.Framing.{record_at};
ghost use Rattle.terms.specs.Decoded.{PlacedIn, Says, read_of};
ghost use Rattle.terms.specs.Bodies.{Length};

mod terms;

use super::kind::{Form, Kind};
use super::{Args, Fault, Item, Term};

// The body of a record: `size` bytes of a job from `at` on, in which a term's number has so many.
#[derive(Clone, Copy)]
struct Body<'a> {
    job: &'a [u8],
    at: usize,
    size: usize,
    bytes: usize,
    ghost inside: { at + size ≤ length job.now },
    ghost sized: { Length bytes },
}

impl Body<'_> {
    ghost use Rattle.terms.specs.Records.{bytes_of};

    // What a record with that body says whose kind has that number, which is no step's, no chain's
    // and no back's.
    fn read_term(&self, number: u32) -> Result<Item, Fault>
        ensures { Says self.now.job.now result
            (read_term self.now.bytes (shape_of number) (bytes_of self.now)) }
    {
        let kind = Kind::try_from(number)?;
        let form = kind.form();
        if !form.fits(self.size, self.bytes) {
            return Err(Fault::Misfit);
        }
        Ok(Item::Term(self.term(kind, form.front)))
    }

    // What a step with that body says.
    fn read_step(&self) -> Result<Item, Fault>
        ensures { Says self.now.job.now result (read_step self.now.bytes (bytes_of self.now)) }
    {
        let form = Form {
            front: Term::NUMBER_BYTES,
            least: 0,
            most: Term::MAX_ARGUMENTS,
        };
        if !form.fits(self.size, self.bytes) {
            return Err(Fault::Misfit);
        }
        let rule = Term::number(self.job, self.at);
        let literals = Args {
            at: self.at + Term::NUMBER_BYTES,
            count: (self.size - Term::NUMBER_BYTES) / self.bytes,
            bytes: self.bytes,
        };
        Ok(Item::Step(rule, literals))
    }

    // What a chain with that body says: its rule, the number of its premises, from 1 to 64, the
    // premises, which are places of steps and so numbers of two bytes, and one literal.
    fn read_chain(&self) -> Result<Item, Fault>
        ensures { Says self.now.job.now result (read_chain self.now.bytes (bytes_of self.now)) }
    {
        if self.size < 2 * Term::NUMBER_BYTES {
            return Err(Fault::Misfit);
        }
        let rule = Term::number(self.job, self.at);
        let count = Term::number(self.job, self.at + Term::NUMBER_BYTES) as usize;
        if count < 1 {
            return Err(Fault::Misfit);
        }
        if Term::MAX_ARGUMENTS < count {
            return Err(Fault::Misfit);
        }
        let end = 2 * Term::NUMBER_BYTES + Term::NUMBER_BYTES * count;
        if self.size != end + self.bytes {
            return Err(Fault::Misfit);
        }
        let premises = Args {
            at: self.at + 2 * Term::NUMBER_BYTES,
            count,
            bytes: Term::NUMBER_BYTES,
        };
        let literal = Term::place(self.job, self.at + end, self.bytes);
        Ok(Item::Chain(rule, premises, literal))
    }

    // What a back with that body says.
    fn read_back(&self) -> Result<Item, Fault>
        ensures { Says self.now.job.now result (read_back self.now.bytes (bytes_of self.now)) }
    {
        if self.size != self.bytes {
            return Err(Fault::Misfit);
        }
        Ok(Item::Back(Term::place(self.job, self.at, self.bytes)))
    }
}

impl Term {
    // What the whole record at `at` says, where the numbers of terms have so many bytes: 100 is a
    // step, 101 a back, 104 a chain, and any other kind a term or unknown.
    pub fn read_as(job: &[u8], at: usize, bytes: usize) -> Result<Item, Fault>
        requires whole { whole (drop at job.now) ≡ true }
        requires sized { Length bytes }
        ensures says { read_of job.now result ≡ read bytes (record_at job.now at) }
        ensures placed { PlacedIn job.now result }
    {
        let body = Body {
            job,
            at: at + 2 * Term::NUMBER_BYTES,
            size: Term::number(job, at) as usize - Term::NUMBER_BYTES,
            bytes,
        };
        match Term::number(job, at + Term::NUMBER_BYTES) {
            Term::STEP_KIND => body.read_step(),
            Term::BACK_KIND => body.read_back(),
            Term::CHAIN_KIND => body.read_chain(),
            kind => body.read_term(kind),
        }
    }

    // What the whole record at `at` says, in the job's own number length.
    pub fn read(job: &[u8], at: usize) -> Result<Item, Fault>
        requires { whole (drop at job.now) ≡ true }
        ensures says { read_of job.now result
            ≡ read (number_length job.now) (record_at job.now at) }
        ensures placed { PlacedIn job.now result }
    {
        Term::read_as(job, at, Term::number_length(job))
    }
}
