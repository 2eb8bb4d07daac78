// The value of a term in one lane, from that lane of its arguments.
ghost use Rattle.std.specs.Prelude.{◌≡◌, [], ◌∷◌, ◌+◌, ◌<◌};
ghost use Rattle.theory.specs.Kind.{Ite};
ghost use Rattle.theory.specs.Limit.{first_terms};
ghost use Rattle.terms.specs.Decoded.{words_in};
ghost use Rattle.operations.specs.Apply.{unary_op, binary_op, many_op};
ghost use Rattle.evaluation.specs.Cells.{lane_at, Lane, Ranged};
ghost use Rattle.store.specs.KeptTerms.{kept_terms};

use crate::cells::lane;
use operations::apply::{Binary, Many, Unary, apply_one, apply_two, choice, extend, start};
use store::shelf::Terms;
use terms::{Args, Term};

// One lane of the value buffer, lane j of w bits, in which every kept term has a number of its
// sort.
#[derive(Clone, Copy)]
pub struct Column<'a> {
    pub terms: Terms<'a>,
    pub values: &'a [u8],
    pub w: u32,
    pub j: u32,
    pub ghost lane: { Lane w j },
    pub ghost ranged: { Ranged (kept_terms terms) (lane_at values.now w j) },
}

impl<'a> Column<'a> {
    ghost use Rattle.store.specs.KeptTerms.{IsTermOn};
    ghost use Rattle.evaluation.specs.Columns.{column, MayTake, MayTakeList, ComesTo, IsValueOf};

    // What the term at place k has in it.
    fn number(&self, k: u32) -> u64
        ensures { result ≡ column self.now k }
    {
        lane(self.values, self.w, self.j, k)
    }

    // An operation of the term at place x.
    fn one(&self, op: Unary, x: u32) -> u64
        requires { MayTake self.now (unary_op op) (x ∷ []) }
        ensures { ComesTo self.now (unary_op op) (x ∷ []) result }
    {
        apply_one(op, self.terms.width_on(x), self.number(x))
    }

    // An operation of the terms at places x and y.
    fn two(&self, op: Binary, x: u32, y: u32) -> u64
        requires { MayTake self.now (binary_op op) (x ∷ y ∷ []) }
        ensures { ComesTo self.now (binary_op op) (x ∷ y ∷ []) result }
    {
        apply_two(op, self.terms.width_on(x), self.number(x), self.number(y))
    }

    // The choice by the term at place c.
    fn three(&self, c: u32, x: u32, y: u32) -> u64
        requires { MayTake self.now Ite (c ∷ x ∷ y ∷ []) }
        ensures { ComesTo self.now Ite (c ∷ x ∷ y ∷ []) result }
    {
        choice(self.number(c), self.number(x), self.number(y))
    }

    // An operation of a list of terms, one after the other.
    fn many(&self, op: Many, a: Args) -> u64
        requires { MayTakeList self.now (many_op op) a }
        ensures { ComesTo self.now (many_op op) (words_in self.now.terms.job.now a) result }
    {
        let (first, others) = a.split_first(self.terms.job);
        let mut acc = start(op, self.terms.width_on(first), self.number(first));
        for k in others.numbers(self.terms.job) {
            acc = extend(op, acc, self.terms.width_on(k), self.number(k));
        }
        acc.value
    }

    // The value of the term t, which stands at a place: of a variable what stands in its own cell,
    // of any other term what its arguments' cells give.
    pub fn evaluate(&self, place: u32, t: Term) -> u64
        requires low { place < first_terms + self.now.terms.rows }
        requires term { IsTermOn self.now.terms place t }
        ensures { IsValueOf self.now place result }
    {
        match t {
            Term::True => 1,
            Term::False => 0,
            Term::BoolVar(_) => self.number(place),
            Term::BvVar(_, _) => self.number(place),
            Term::Const(_, x) => x,
            Term::Not(x) => self.one(Unary::Not, x),
            Term::BvNot(x) => self.one(Unary::BvNot, x),
            Term::BvNeg(x) => self.one(Unary::BvNeg, x),
            Term::BvBitOf(i, x) => self.one(Unary::BitOf(i), x),
            Term::BvExtract(u, l, x) => self.one(Unary::Extract(u, l), x),
            Term::SignExtend(k, x) => self.one(Unary::Extend(k), x),
            Term::ZeroExtend(k, x) => self.one(Unary::ZeroExtend(k), x),
            Term::RotateLeft(k, x) => self.one(Unary::RotateLeft(k), x),
            Term::RotateRight(k, x) => self.one(Unary::RotateRight(k), x),
            Term::Repeat(k, x) => self.one(Unary::Repeat(k), x),
            Term::Xor(x, y) => self.two(Binary::Xor, x, y),
            Term::Equals(x, y) => self.two(Binary::Equals, x, y),
            Term::BvXNor(x, y) => self.two(Binary::XNor, x, y),
            Term::BvComp(x, y) => self.two(Binary::Comp, x, y),
            Term::BvULt(x, y) => self.two(Binary::ULt, x, y),
            Term::BvSLt(x, y) => self.two(Binary::SLt, x, y),
            Term::BvShl(x, y) => self.two(Binary::Shl, x, y),
            Term::BvLShr(x, y) => self.two(Binary::LShr, x, y),
            Term::BvAShr(x, y) => self.two(Binary::AShr, x, y),
            Term::BvUDiv(x, y) => self.two(Binary::UDiv, x, y),
            Term::BvURem(x, y) => self.two(Binary::URem, x, y),
            Term::Ite(c, x, y) => self.three(c, x, y),
            Term::And(a) => self.many(Many::And, a),
            Term::Or(a) => self.many(Many::Or, a),
            Term::BvBbTerm(a) => self.many(Many::Bits, a),
            Term::BvAnd(a) => self.many(Many::BvAnd, a),
            Term::BvOr(a) => self.many(Many::BvOr, a),
            Term::BvXor(a) => self.many(Many::BvXor, a),
            Term::BvAdd(a) => self.many(Many::Add, a),
            Term::BvMul(a) => self.many(Many::Mul, a),
            Term::BvConcat(a) => self.many(Many::Concat, a),
        }
    }
}
