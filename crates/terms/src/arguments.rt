// The kind and the arguments of a term.
ghost use Rattle.std.specs.Prelude.{◌≡◌, ◌<◌, get_or};
ghost use Rattle.theory.specs.Codes.{all_below};
ghost use Rattle.terms.specs.Decoded.{Inside, OperandsPlaced, words_in};
ghost use Rattle.terms.specs.Decoded.{head_of, told_head, operands_of, arguments_of};

use super::kind::Kind;
use super::{Args, Head, Operands, Term};

impl Term {
    // Argument i of a list.
    pub fn argument(job: &[u8], list: Args, i: usize) -> u32
        requires inside { Inside job.now list }
        requires below { i < list.count }
        ensures { result ≡ get_or (words_in job.now list) i 0 }
    {
        let start = list.at;
        let bytes = list.bytes;
        let at = start + bytes * i;
        // Byte by byte: a loop over so few is several times as long, in every caller.
        let one = u64::from(job[at]);
        if bytes == 1 {
            return one as u32;
        }
        let two = one + 256 * u64::from(job[at + 1]);
        if bytes == 2 {
            return two as u32;
        }
        let three = two + 65536 * u64::from(job[at + 2]);
        if bytes == 3 {
            return three as u32;
        }
        (three + 16777216 * u64::from(job[at + 3])) as u32
    }

    // Is each number of a list below n?
    pub fn all_below(job: &[u8], list: Args, n: u32) -> bool
        requires { Inside job.now list }
        ensures { result ≡ all_below n (words_in job.now list) }
    {
        for x in list.numbers(job) {
            if n <= x {
                return false;
            }
        }
        true
    }

    // The arguments of a term.
    pub fn operands(self) -> Operands
        ensures { result ≡ operands_of self }
    {
        match self {
            Term::True | Term::False => Operands::None,
            Term::BoolVar(_) | Term::BvVar(_, _) | Term::Const(_, _) => Operands::None,
            Term::Not(x) | Term::BvNot(x) | Term::BvNeg(x) => Operands::One(x),
            Term::BvBitOf(_, x) | Term::SignExtend(_, x) | Term::ZeroExtend(_, x) => Operands::One(
                x,
            ),
            Term::RotateLeft(_, x) | Term::RotateRight(_, x) | Term::Repeat(_, x) => Operands::One(
                x,
            ),
            Term::BvExtract(_, _, x) => Operands::One(x),
            Term::Xor(x, y) | Term::Equals(x, y) | Term::BvXNor(x, y) => Operands::Two(x, y),
            Term::BvComp(x, y) | Term::BvULt(x, y) | Term::BvSLt(x, y) => Operands::Two(x, y),
            Term::BvShl(x, y) | Term::BvLShr(x, y) | Term::BvAShr(x, y) => Operands::Two(x, y),
            Term::BvUDiv(x, y) | Term::BvURem(x, y) => Operands::Two(x, y),
            Term::Ite(c, x, y) => Operands::Three(c, x, y),
            Term::And(a) | Term::Or(a) | Term::BvBbTerm(a) | Term::BvConcat(a) => Operands::List(a),
            Term::BvAnd(a) | Term::BvOr(a) | Term::BvXor(a) => Operands::List(a),
            Term::BvAdd(a) | Term::BvMul(a) => Operands::List(a),
        }
    }

    // The kind of a term, and the numbers in it.
    pub fn head(self) -> Head
        ensures { told_head result ≡ head_of self }
    {
        match self {
            Term::True => Head::True,
            Term::False => Head::False,
            Term::BoolVar(x) => Head::Of(Kind::BoolVar, x, 0),
            Term::BvVar(n, x) => Head::Of(Kind::BvVar, n, u64::from(x)),
            Term::Const(n, v) => Head::Of(Kind::Const, n, v),
            Term::Not(_) => Head::Of(Kind::Not, 0, 0),
            Term::And(_) => Head::Of(Kind::And, 0, 0),
            Term::Or(_) => Head::Of(Kind::Or, 0, 0),
            Term::Xor(_, _) => Head::Of(Kind::Xor, 0, 0),
            Term::Equals(_, _) => Head::Of(Kind::Equals, 0, 0),
            Term::Ite(_, _, _) => Head::Of(Kind::Ite, 0, 0),
            Term::BvBitOf(i, _) => Head::Of(Kind::BvBitOf, i, 0),
            Term::BvBbTerm(_) => Head::Of(Kind::BvBbTerm, 0, 0),
            Term::BvNot(_) => Head::Of(Kind::BvNot, 0, 0),
            Term::BvNeg(_) => Head::Of(Kind::BvNeg, 0, 0),
            Term::BvAnd(_) => Head::Of(Kind::BvAnd, 0, 0),
            Term::BvOr(_) => Head::Of(Kind::BvOr, 0, 0),
            Term::BvXor(_) => Head::Of(Kind::BvXor, 0, 0),
            Term::BvAdd(_) => Head::Of(Kind::BvAdd, 0, 0),
            Term::BvMul(_) => Head::Of(Kind::BvMul, 0, 0),
            Term::BvXNor(_, _) => Head::Of(Kind::BvXNor, 0, 0),
            Term::BvComp(_, _) => Head::Of(Kind::BvComp, 0, 0),
            Term::BvULt(_, _) => Head::Of(Kind::BvULt, 0, 0),
            Term::BvSLt(_, _) => Head::Of(Kind::BvSLt, 0, 0),
            Term::BvShl(_, _) => Head::Of(Kind::BvShl, 0, 0),
            Term::BvLShr(_, _) => Head::Of(Kind::BvLShr, 0, 0),
            Term::BvAShr(_, _) => Head::Of(Kind::BvAShr, 0, 0),
            Term::BvUDiv(_, _) => Head::Of(Kind::BvUDiv, 0, 0),
            Term::BvURem(_, _) => Head::Of(Kind::BvURem, 0, 0),
            Term::BvConcat(_) => Head::Of(Kind::BvConcat, 0, 0),
            Term::BvExtract(i, j, _) => Head::Of(Kind::BvExtract, i, u64::from(j)),
            Term::SignExtend(k, _) => Head::Of(Kind::SignExtend, k, 0),
            Term::ZeroExtend(k, _) => Head::Of(Kind::ZeroExtend, k, 0),
            Term::RotateLeft(k, _) => Head::Of(Kind::RotateLeft, k, 0),
            Term::RotateRight(k, _) => Head::Of(Kind::RotateRight, k, 0),
            Term::Repeat(k, _) => Head::Of(Kind::Repeat, k, 0),
        }
    }

    // Is each argument of a term below n?
    pub fn below(self, job: &[u8], n: u32) -> bool
        requires { OperandsPlaced job.now (operands_of self) }
        ensures { result ≡ all_below n (arguments_of job.now self) }
    {
        match self.operands() {
            Operands::None => true,
            Operands::One(x) => x < n,
            Operands::Two(x, y) => x < n && y < n,
            Operands::Three(x, y, z) => x < n && y < n && z < n,
            Operands::List(a) => Term::all_below(job, a, n),
        }
    }
}
