// The bits of a term at a place, read from the cells: a Bool's is in its own cell, a variable's are
// in the inputs, from the place on that its cell says. The bit of a Bool comes from the cells of
// its arguments.
ghost use Rattle.std.specs.Prelude.{◌≡◌, ◌+◌, ◌<◌, T, map, drop, get_or};
ghost use Rattle.std.proofs.Math.Dec.{T_prop};
ghost use Rattle.theory.specs.Limit.{first_terms};
ghost use Rattle.theory.proofs.Facts.{kept_facts};
ghost use Rattle.terms.specs.Decoded.{Inside, words_in};
ghost use Rattle.store.specs.KeptTerms.{kept_term, kept_width};
ghost use Rattle.sweeps.specs.Known.{of_byte};
ghost use Rattle.sweeps.specs.Variables.{bits_in};
ghost use Rattle.ternary.specs.Gates.{bit_of, row_known};
ghost use Rattle.ternary.specs.Bits.{cell_bit, Closed};

use crate::codes::read_bit;
use crate::gates::{equal_bit, ite_bit, join, not_bit, xor_bit};
use evaluation::cells::cell;
use operations::words::bit;
use store::shelf::Terms;
use store::sorts::Sort;
use terms::{Args, Term};

// The bit that byte i after the place `at` of the inputs says: none is known past their end.
pub fn input_bit(inputs: &[u8], at: u64, i: u32) -> Option<bool>
    ensures { bit_of result ≡ of_byte (get_or (drop at inputs.now) i 2) }
{
    let k = (at as usize).checked_add(i as usize)?;
    let &b = inputs.get(k)?;
    read_bit(u64::from(b))
}

// The bit in cell k.
fn bit_in(values: &[u8], k: u32) -> Option<bool>
    ensures { bit_of result ≡ cell_bit values.now k }
{
    read_bit(cell(values, k))
}

// And (or Or) of the cells of a list of terms, the last first.
pub fn row(job: &[u8], values: &[u8], or: bool, a: Args) -> Option<bool>
    requires { Inside job.now a }
    ensures { bit_of result ≡ row_known or (map (cell_bit values.now) (words_in job.now a)) }
{
    let mut acc = Some(!or);
    for k in a.numbers(job).rev() {
        acc = join(or, bit_in(values, k), acc);
    }
    acc
}

// What the bits of a job's marked terms are read from: the cells, and the inputs. The arguments of
// a marked term are marked, and its kind is bit-level.
#[derive(Clone, Copy)]
pub struct KnownBits<'a> {
    pub terms: Terms<'a>,
    pub values: &'a [u8],
    pub inputs: &'a [u8],
    pub ghost closed: { Closed terms.job.now terms.work.now terms.rows } by { Prim.hlevel (kept_facts, T_prop) },
}

impl<'a> KnownBits<'a> {
    ghost use Rattle.ternary.specs.KnownBits.{is_marked, IsBitOf, IsKnownAt};

    // Bit i of the term at a marked place.
    pub fn bit_on(&self, x: u32, i: u32) -> Option<bool>
        requires low { x < first_terms + self.now.terms.rows }
        requires marked { T (is_marked self.now x) }
        requires bit { i < bits_in (kept_term self.now.terms x) }
        ensures { IsBitOf self.now x i (bit_of result) }
    {
        if self.terms.sort_on(x) == Sort::Bool {
            return bit_in(self.values, x);
        }
        match self.terms.term_on(x) {
            Term::BvVar(_, _) => input_bit(self.inputs, cell(self.values, x), i),
            Term::Const(_, v) => Some(bit(i, v)),
            Term::BvBbTerm(a) => bit_in(self.values, Term::argument(self.terms.job, a, i as usize)),
            // No other bit-vector is bit-level.
            _ => None,
        }
    }

    // The bit of the Bool at a marked place.
    pub fn known_of(&self, place: u32) -> Option<bool>
        requires low { place < first_terms + self.now.terms.rows }
        requires marked { T (is_marked self.now place) }
        requires bool_there { kept_width self.now.terms place ≡ 0 }
        ensures { IsKnownAt self.now place (bit_of result) }
    {
        let values = self.values;
        match self.terms.term_on(place) {
            Term::True => Some(true),
            Term::False => Some(false),
            Term::BoolVar(_) => input_bit(self.inputs, cell(values, place), 0),
            Term::Not(x) => not_bit(bit_in(values, x)),
            Term::And(a) => row(self.terms.job, values, false, a),
            Term::Or(a) => row(self.terms.job, values, true, a),
            Term::Xor(x, y) => xor_bit(bit_in(values, x), bit_in(values, y)),
            Term::Equals(x, y) => equal_bit(bit_in(values, x), bit_in(values, y)),
            Term::Ite(c, x, y) => ite_bit(bit_in(values, c), bit_in(values, x), bit_in(values, y)),
            Term::BvBitOf(i, x) => self.bit_on(x, i),
            // No other Bool is bit-level.
            _ => None,
        }
    }
}
