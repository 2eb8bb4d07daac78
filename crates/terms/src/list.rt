// The numbers of an argument list, one after the other.
ghost use Rattle.std.specs.Prelude.{◌≡◌, ◌∷◌, ◌<◌};
ghost use Rattle.terms.specs.Decoded.{Inside, words_in};

use super::{Args, Term};

impl Args {
    ghost use Rattle.terms.specs.Numbers.{numbers_left};

    // The first number, and the list of the others.
    #[inline]
    pub fn split_first(self, job: &[u8]) -> (u32, Args)
        requires inside { Inside job.now self }
        requires some { 0 < self.count }
        ensures numbers { words_in job.now self ≡ result.0 ∷ words_in job.now result.1 }
        ensures inside { Inside job.now result.1 }
    {
        let others = Args {
            at: self.at + self.bytes,
            count: self.count - 1,
            bytes: self.bytes,
        };
        (Term::argument(job, self, 0), others)
    }

    // The numbers of the list, in its order.
    #[inline]
    pub fn numbers<'a>(self, job: &'a [u8]) -> Numbers<'a>
        requires { Inside job.now self }
        ensures { numbers_left result ≡ words_in job.now self }
    {
        Numbers { job, rest: self }
    }
}

// The numbers that are still to come.
#[derive(Clone, Copy)]
pub struct Numbers<'a> {
    job: &'a [u8],
    rest: Args,
    ghost inside: { Inside job.now rest },
}

impl<'a> Iterator for Numbers<'a> {
    type Item = u32;

    ghost use Rattle.std.specs.Iterator.{YieldsFirst, item_count};
    ghost use Rattle.terms.specs.Numbers.{numbers_left};

    ghost next_gives = { YieldsFirst numbers_left };

    ghost remaining = { item_count numbers_left };

    #[inline]
    fn next(&mut self) -> Option<u32> {
        if self.rest.count == 0 {
            return None;
        }
        let (first, others) = self.rest.split_first(self.job);
        self.rest = others;
        Some(first)
    }
}

impl<'a> DoubleEndedIterator for Numbers<'a> {
    ghost use Rattle.std.specs.Iterator.{YieldsLast};
    ghost use Rattle.terms.specs.Numbers.{numbers_left};

    ghost next_back_gives = { YieldsLast numbers_left };

    #[inline]
    fn next_back(&mut self) -> Option<u32> {
        let list = self.rest;
        if list.count == 0 {
            return None;
        }
        self.rest = Args {
            at: list.at,
            count: list.count - 1,
            bytes: list.bytes,
        };
        Some(Term::argument(self.job, list, list.count - 1))
    }
}
