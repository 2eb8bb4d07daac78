// The term of a record's body, by its kind.
ghost use Rattle.std.specs.Prelude.{◌≡◌, true, ◌+◌, ◌*◌, ◌/◌, ◌≤◌, ◌<◌, length, take, drop};
ghost use Rattle.theory.specs.Limit.{number_bytes, value_bytes};
ghost use Rattle.theory.specs.Record.{word, little_endian, front};
ghost use Rattle.terms.specs.Decoded.{SaysTerm};
ghost use Rattle.terms.specs.Bodies.{fitting, made};
ghost use Rattle.terms.specs.Numbered.{shape};

use super::Body;
use crate::kind::{Form, Kind};
use crate::{Args, Term};

impl Body<'_> {
    ghost use Rattle.terms.specs.Records.{bytes_of, argument_at};

    // Number i of those in front of the arguments. Past the end a byte is 0, here and below.
    fn index(&self, i: usize) -> u32
        requires { i < 2 }
        ensures { result ≡ word (drop (self.now.at + number_bytes * i) self.now.job.now) }
    {
        Term::number(self.job, self.at + Term::NUMBER_BYTES * i)
    }

    // The value after the first of them.
    fn value(&self) -> u64
        ensures { result
            ≡ little_endian (take value_bytes (drop (self.now.at + number_bytes) self.now.job.now)) }
    {
        Term::value(self.job, self.at + Term::NUMBER_BYTES)
    }

    // Argument i, after `before` bytes of such numbers.
    fn argument(&self, before: usize, i: usize) -> u32
        requires front { self.now.at + before ≤ length self.now.job.now }
        requires few { i < 3 }
        ensures { result ≡ argument_at self.now before i }
    {
        Term::place(self.job, self.at + before + self.bytes * i, self.bytes)
    }

    // The arguments, where there is nothing in front of them.
    fn arguments(&self) -> Args
        ensures { result ≡ record {
          at = self.now.at;
          count = self.now.size / self.now.bytes;
          bytes = self.now.bytes;
        } }
    {
        Args {
            at: self.at,
            count: Form::count_in(self.size, self.bytes),
            bytes: self.bytes,
        }
    }

    // The term of a kind whose form it has: `before` bytes of indices, then arguments.
    pub(super) fn term(&self, kind: Kind, before: usize) -> Term
        requires fits { fitting self.now.bytes (shape kind) (bytes_of self.now) ≡ true }
        requires front { before ≡ front (shape kind) }
        ensures { SaysTerm self.now.job.now result
            (made self.now.bytes (shape kind) (bytes_of self.now)) }
    {
        let (x, y) = (self.argument(before, 0), self.argument(before, 1));
        let list = self.arguments();
        match kind {
            Kind::BoolVar => Term::BoolVar(self.index(0)),
            Kind::BvVar => Term::BvVar(self.index(0), self.index(1)),
            Kind::Const => Term::Const(self.index(0), self.value()),
            Kind::Not => Term::Not(x),
            Kind::And => Term::And(list),
            Kind::Or => Term::Or(list),
            Kind::Xor => Term::Xor(x, y),
            Kind::Equals => Term::Equals(x, y),
            Kind::Ite => Term::Ite(x, y, self.argument(before, 2)),
            Kind::BvBitOf => Term::BvBitOf(self.index(0), x),
            Kind::BvBbTerm => Term::BvBbTerm(list),
            Kind::BvNot => Term::BvNot(x),
            Kind::BvNeg => Term::BvNeg(x),
            Kind::BvAnd => Term::BvAnd(list),
            Kind::BvOr => Term::BvOr(list),
            Kind::BvXor => Term::BvXor(list),
            Kind::BvAdd => Term::BvAdd(list),
            Kind::BvMul => Term::BvMul(list),
            Kind::BvXNor => Term::BvXNor(x, y),
            Kind::BvComp => Term::BvComp(x, y),
            Kind::BvULt => Term::BvULt(x, y),
            Kind::BvSLt => Term::BvSLt(x, y),
            Kind::BvShl => Term::BvShl(x, y),
            Kind::BvLShr => Term::BvLShr(x, y),
            Kind::BvAShr => Term::BvAShr(x, y),
            Kind::BvUDiv => Term::BvUDiv(x, y),
            Kind::BvURem => Term::BvURem(x, y),
            Kind::BvConcat => Term::BvConcat(list),
            Kind::BvExtract => Term::BvExtract(self.index(0), self.index(1), x),
            Kind::SignExtend => Term::SignExtend(self.index(0), x),
            Kind::ZeroExtend => Term::ZeroExtend(self.index(0), x),
            Kind::RotateLeft => Term::RotateLeft(self.index(0), x),
            Kind::RotateRight => Term::RotateRight(self.index(0), x),
            Kind::Repeat => Term::Repeat(self.index(0), x),
        }
    }
}
