// A job's bytes as decoded records: the numbers in them, where a record ends, and what it says.
#![tactic(auto, using(std::proofs::lemmas::Bool::Decides::nat_tests))]

mod arguments;
mod bytes;
pub mod kind;
pub mod list;
mod records;
pub mod refusal;
pub mod stop;

ghost use Rattle.std.specs.Prelude.{◌≡◌};
ghost use Rattle.terms.specs.declared.Fault.TheVariants as F;

use kind::{Kind, UnknownKind};

// The bytes of the shorter answer: its length, its kind, a rule, a code and a depth, which has as
// many bytes as a term's number.
pub const ANSWER_BYTES: usize = 5 * Term::NUMBER_BYTES;

// Where an answer's kind stands in it, its rule, its code and its depth; the length stands first.
pub const ANSWER_KIND_AT: usize = Term::NUMBER_BYTES;

pub const RULE_AT: usize = 2 * Term::NUMBER_BYTES;

pub const CODE_AT: usize = 3 * Term::NUMBER_BYTES;

pub const DEPTH_AT: usize = 4 * Term::NUMBER_BYTES;

// An argument list: its place in the job's bytes, how many numbers stand there, and the bytes of
// each.
#[derive(Clone, Copy)]
pub struct Args {
    pub at: usize,
    pub count: usize,
    pub bytes: usize,
}

// A term, with the numbers of its arguments. No record says `True` or `False`: they are terms 0 and
// 1.
#[derive(Clone, Copy)]
pub enum Term {
    True,
    False,
    // name
    BoolVar(u32),
    // width, name
    BvVar(u32, u32),
    // width, value
    Const(u32, u64),
    Not(u32),
    And(Args),
    Or(Args),
    Xor(u32, u32),
    Equals(u32, u32),
    Ite(u32, u32, u32),
    // index, term
    BvBitOf(u32, u32),
    BvBbTerm(Args),
    BvNot(u32),
    BvNeg(u32),
    BvAnd(Args),
    BvOr(Args),
    BvXor(Args),
    BvAdd(Args),
    BvMul(Args),
    BvXNor(u32, u32),
    BvComp(u32, u32),
    BvULt(u32, u32),
    BvSLt(u32, u32),
    BvShl(u32, u32),
    BvLShr(u32, u32),
    BvAShr(u32, u32),
    BvUDiv(u32, u32),
    BvURem(u32, u32),
    BvConcat(Args),
    // upper index, lower index, term
    BvExtract(u32, u32, u32),
    // copies of the top bit, term
    SignExtend(u32, u32),
    // zeros above, term
    ZeroExtend(u32, u32),
    // places, term
    RotateLeft(u32, u32),
    RotateRight(u32, u32),
    // copies, term
    Repeat(u32, u32),
}

// The arguments of a term: so many numbers, or a list in the job.
#[derive(Clone, Copy)]
pub enum Operands {
    None,
    One(u32),
    Two(u32, u32),
    Three(u32, u32, u32),
    List(Args),
}

// A term's kind, and the numbers in it, 0 where there is none. No record says `True` or `False`, so
// that they have no `Kind`.
#[derive(Clone, Copy, PartialEq, Eq)]
pub enum Head {
    True,
    False,
    Of(Kind, u32, u64),
}

// What a record says: a term, a step's rule and literals, a chain's rule, premises and literal, or
// a back's count.
#[derive(Clone, Copy)]
pub enum Item {
    Term(Term),
    Step(u32, Args),
    Chain(u32, Args, u32),
    Back(u32),
}

// Why a record says nothing.
#[derive(Clone, Copy, Debug, PartialEq, Eq)]
pub enum Fault {
    // its kind is unknown
    Unknown,
    // its body has not the kind's length
    Misfit,
}

impl From<UnknownKind> for Fault {
    ghost from_gives = { λ _ fault. fault ≡ F.Unknown };

    fn from(_unknown: UnknownKind) -> Self {
        Fault::Unknown
    }
}

impl Term {
    // the greatest width of a bit-vector
    pub const MAX_WIDTH: u32 = 64;
    // the greatest number of arguments of a term, and of literals of a step
    pub const MAX_ARGUMENTS: usize = 64;
    // the greatest number of terms, `True` and `False` counted, and where their numbers are long
    pub const MAX_TERMS: usize = 65535;

    pub const LONG_MAX_TERMS: usize = 1000000;
    // bytes of a number in a record, but for the numbers of terms
    pub const NUMBER_BYTES: usize = 2;
    // the most bytes that a term's number may have, in a job that asks for long ones
    pub const LONG_BYTES: usize = 4;
    // the kinds of records that say no term: a step, a back, the request for long numbers, a chain
    pub const STEP_KIND: u32 = 100;

    pub const BACK_KIND: u32 = 101;

    pub const LONG_KIND: u8 = 103;

    pub const CHAIN_KIND: u32 = 104;
    // bytes of a constant's value
    pub const VALUE_BYTES: usize = 8;
    // where a record's kind stands in it, after its length
    pub const KIND_AT: usize = Term::NUMBER_BYTES;
    // where its body stands
    pub const BODY_AT: usize = 2 * Term::NUMBER_BYTES;
}
