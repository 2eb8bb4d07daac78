// The arguments of a term: the place, the sort and the depth of each, and what comes of them all.
ghost use Rattle.std.specs.Prelude.{◌≡◌, true, ◌&&◌, ◌+◌, ◌<◌, get_or, length};
ghost use Rattle.std.proofs.Math.Bool.{Bool-set};
ghost use Rattle.theory.specs.Limit.{first_terms};
ghost use Rattle.theory.specs.Sort.{sort_of, bv, guard, good, first, is_width};
ghost use Rattle.theory.specs.Sort.{all_are, alike, all_bv, sum_widths};
ghost use Rattle.theory.specs.Depth.{depth};
ghost use Rattle.theory.specs.Codes.{all_below};
ghost use Rattle.rows.specs.Layout.{Bounded, place_end};
ghost use Rattle.terms.specs.Decoded.{OperandsPlaced, numbers_of};
ghost use Rattle.store.specs.Sorts.{sort_read, sort_or_bad, count_of};
ghost use Rattle.intern.specs.Kinds.{deepest_bool};
ghost use Rattle.store.proofs.Facts.{argument_facts};

use super::guards::of_width;
use store::gates::Kept;
use store::sorts::Sort;
use terms::{Operands, Term};

// How many arguments there are.
pub fn count(ops: Operands) -> usize
    ensures { result ≡ count_of ops }
{
    match ops {
        Operands::None => 0,
        Operands::One(_) => 1,
        Operands::Two(_, _) => 2,
        Operands::Three(_, _, _) => 3,
        Operands::List(a) => a.count,
    }
}

// Argument i.
pub fn operand(job: &[u8], ops: Operands, i: usize) -> u32
    requires placed { OperandsPlaced job.now ops }
    requires below { i < count_of ops }
    ensures { result ≡ get_or (numbers_of job.now ops) i 0 }
{
    match ops {
        Operands::None => 0,
        Operands::One(x) => x,
        Operands::Two(x, y) => { if i == 0 { x } else { y } }
        Operands::Three(x, y, z) => {
            if i == 0 {
                return x;
            }
            if i == 1 { y } else { z }
        }
        Operands::List(a) => Term::argument(job, a, i),
    }
}

// The arguments of a term, each of which is the number of a kept term.
#[derive(Clone, Copy)]
pub struct Arguments<'a> {
    pub kept: Kept<'a>,
    pub list: Operands,
    pub ghost placed: { OperandsPlaced kept.lookup.job.now list } by { Prim.hlevel argument_facts },
    pub ghost below: { all_below (first_terms + kept.lookup.rows) (numbers_of kept.lookup.job.now list) ≡ true } by { Prim.hlevel Bool-set },
}

impl<'a> Arguments<'a> {
    ghost use Rattle.intern.specs.Given.{places, given_terms, argument_term};
    ghost use Rattle.intern.specs.Given.{argument_sorts, deepest_argument};

    // How many there are.
    pub fn count(&self) -> usize
        ensures { result ≡ length (places self.now) }
    {
        count(self.list)
    }

    // The place of argument i.
    pub fn place(&self, i: usize) -> u32
        requires { i < length (places self.now) }
        ensures is { result ≡ get_or (places self.now) i 0 }
        ensures below { result < first_terms + self.now.kept.lookup.rows }
    {
        operand(self.kept.lookup.job, self.list, i)
    }

    // The sort of argument i.
    pub fn sort(&self, i: usize) -> Sort
        requires { i < length (places self.now) }
        ensures { sort_read result ≡ sort_of (argument_term self.now i) }
    {
        self.kept.sort_at(self.place(i))
    }

    // The depth of argument i.
    pub fn depth(&self, i: usize) -> usize
        requires { i < length (places self.now) }
        ensures { Bounded result (depth (argument_term self.now i)) place_end }
    {
        self.kept.depth_at(self.place(i))
    }

    // The sort of the first argument, if there is one.
    pub fn first_sort(&self) -> Option<Sort>
        ensures { sort_or_bad result ≡ first (argument_sorts self.now) }
    {
        if self.count() == 0 {
            return None;
        }
        Some(self.sort(0))
    }

    // Have all arguments this sort? `None` is the sort of what has none, as no argument is.
    pub fn all_are(&self, s: Option<Sort>) -> bool
        ensures { result ≡ all_are (sort_or_bad s) (argument_sorts self.now) }
    {
        (0..self.count()).all(|i| Some(self.sort(i)) == s)
    }

    // Have all arguments one sort, the first's?
    pub fn one_sort(&self) -> bool
        ensures { let ss = argument_sorts self.now in
            result ≡ (good (first ss) && all_are (first ss) ss) }
    {
        let Some(one) = self.first_sort() else {
            return false;
        };
        self.all_are(Some(one))
    }

    // Are all arguments bit-vectors of one width?
    pub fn all_alike(&self) -> bool
        ensures { result ≡ alike (argument_sorts self.now) }
    {
        let Some(s) = self.first_sort() else {
            return false;
        };
        let Sort::Bv(_) = s else {
            return false;
        };
        self.all_are(Some(s))
    }

    // The sort of all arguments joined: bit-vectors whose widths sum to a width.
    pub fn joined(&self) -> Option<Sort>
        ensures { let ss = argument_sorts self.now in
            sort_or_bad result
            ≡ guard (all_bv ss && is_width (sum_widths ss)) (bv (sum_widths ss)) }
    {
        let mut sum: u32 = 0;
        for i in 0..self.count() {
            let Sort::Bv(w) = self.sort(i) else {
                return None;
            };
            if Term::MAX_WIDTH - sum < w {
                return None;
            }
            sum += w;
        }
        of_width(sum)
    }

    // The depth of the deepest argument, 0 where there is none.
    pub fn deepest(&self) -> usize
        ensures { Bounded result (deepest_argument self.now) place_end }
    {
        (0..self.count()).fold(0, |most, i| most.max(self.depth(i)))
    }

    // The depth of the deepest argument where all are Bools: one look at each argument.
    pub fn deepest_bool(&self) -> Option<u32>
        ensures { result ≡ deepest_bool (given_terms self.now) (places self.now) }
    {
        let terms = self.kept.terms();
        let mut most: u32 = 0;
        for i in 0..self.count() {
            let deep = terms.bool_depth(self.place(i))?;
            most = most.max(deep);
        }
        Some(most)
    }
}
