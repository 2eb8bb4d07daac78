// How a term begins.
ghost use Rattle.std.specs.Prelude.{◌≡◌, ◌≤◌};
ghost use Rattle.terms.specs.Numbered.{shape};
ghost use Rattle.text.specs.Reading.{digits_of, atom, bv_constant, with_numbers};
ghost use Rattle.text.specs.Reading.{indexed_operation, head, opened};
ghost use Rattle.names.specs.Kinds.{declared_in, told_op};
ghost use Rattle.heads.specs.Heads.{told_start, told_operation};

use names::kinds::{Indices, Operator, bv_value, family, read_index};
use names::marks::{first_word, right_after, word_after};
use names::names::find_name;
use terms::kind::Kind;
use words::numbers::number_in;
use words::tables::kind_named;
use words::tokens::{Token, next_token};

// How a term begins: it is whole, or its operation was read; and what stands after that.
#[derive(Clone, Copy)]
pub enum Start<'a> {
    Leaf(Operator, &'a [u8]),
    Branch(Operator, &'a [u8]),
}

// An operator that was read, and what stands after it.
#[derive(Clone, Copy)]
pub struct Operation<'a> {
    pub operator: Operator,
    pub rest: &'a [u8],
}

// A constant of so many bits for each digit.
fn digits(word: &[u8], bits: usize, base: u64) -> Option<Operator>
    requires low { 2 ≤ base }
    requires high { base ≤ 16 }
    ensures { told_op result ≡ digits_of bits base word.now }
{
    let digits = bits.checked_mul(word.len())?;
    let width = u16::try_from(digits).ok()?;
    let value = number_in(base, word, u64::MAX)?;
    Some(Operator::Of(Kind::Const, u64::from(width), value))
}

// A word that is a whole term: true, false, a variable, #b or #x.
#[tactic(auto, using(crate::proofs::Sets::laws), unfolding(text::specs::Reading::atom))]
fn read_atom(word: &[u8], declarations: &[u8]) -> Option<Operator>
    ensures { told_op result ≡ atom (declared_in declarations.now) word.now }
{
    if word == b"true".as_slice() {
        return Some(Operator::True);
    }
    if word == b"false".as_slice() {
        return Some(Operator::False);
    }
    if let Some(variable) = find_name(declarations, word) {
        return Some(variable);
    }
    if let Some(bits) = word.strip_prefix(b"#b") {
        return digits(bits, 1, 2);
    }
    digits(word.strip_prefix(b"#x")?, 4, 16)
}

// bvN n) after (_
#[tactic(auto, using(crate::proofs::Sets::laws), unfolding(text::specs::Reading::bv_constant))]
fn read_constant(line: &[u8]) -> Option<Operation<'_>>
    ensures { told_operation result ≡ bv_constant line.now }
{
    let (word, rest) = first_word(line)?;
    let width = read_index(rest)?;
    let rest = right_after(width.rest)?;
    let value = bv_value(word)?;
    let operator = Operator::Of(Kind::Const, width.number, value);
    Some(Operation { operator, rest })
}

// The numbers of a kind that has one or two.
fn read_numbers(line: &[u8], kind: Kind) -> Option<Operation<'_>>
    ensures { told_operation result ≡ with_numbers (shape kind) line.now }
{
    match family(kind) {
        Indices::Indexed => {
            let x = read_index(line)?;
            let operator = Operator::Of(kind, x.number, 0);
            Some(Operation {
                operator,
                rest: x.rest,
            })
        }
        Indices::TwiceIndexed => {
            let x = read_index(line)?;
            let y = read_index(x.rest)?;
            let operator = Operator::Of(kind, x.number, y.number);
            Some(Operation {
                operator,
                rest: y.rest,
            })
        }
        _ => None,
    }
}

// _ name i ..) after ((
#[tactic(auto, using(crate::proofs::Sets::laws), unfolding(text::specs::Reading::indexed_operation))]
fn read_indexed(line: &[u8]) -> Option<Operation<'_>>
    ensures { told_operation result ≡ indexed_operation line.now }
{
    let a = word_after(line, b"_")?;
    let (word, rest) = first_word(a)?;
    let kind = kind_named(word)?;
    let o = read_numbers(rest, kind)?;
    let rest = right_after(o.rest)?;
    Some(Operation { rest, ..o })
}

// After a parenthesis: a constant, an operation with numbers, or one without.
#[tactic(auto, using(crate::proofs::Sets::laws), unfolding(text::specs::Reading::opened))]
fn begin_opened(line: &[u8]) -> Option<Start<'_>>
    ensures { told_start result ≡ opened line.now }
{
    let next = next_token(line);
    if let Token::Left = next.token {
        let o = read_indexed(next.rest)?;
        return Some(Start::Branch(o.operator, o.rest));
    }
    let Token::Word(word) = next.token else {
        return None;
    };
    if word == b"_".as_slice() {
        let o = read_constant(next.rest)?;
        return Some(Start::Leaf(o.operator, o.rest));
    }
    let kind = kind_named(word)?;
    match family(kind) {
        Indices::Plain => Some(Start::Branch(Operator::Of(kind, 0, 0), next.rest)),
        _ => None,
    }
}

// How the term that a line begins with begins; the variables are those that `declarations` declare.
#[tactic(auto, using(crate::proofs::Sets::laws), unfolding(text::specs::Reading::head))]
pub fn begin<'a>(line: &'a [u8], declarations: &[u8]) -> Option<Start<'a>>
    ensures { told_start result ≡ head (declared_in declarations.now) line.now }
{
    let next = next_token(line);
    match next.token {
        Token::Left => begin_opened(next.rest),
        Token::Word(word) => {
            let operator = read_atom(word, declarations)?;
            Some(Start::Leaf(operator, next.rest))
        }
        _ => None,
    }
}
