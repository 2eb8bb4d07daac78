// Declarations, and variables by their names: the declarations are read again for each name.
ghost use Rattle.std.specs.Prelude.{◌≡◌};
ghost use Rattle.text.specs.Reading.{sort_in, find_name, variable};
ghost use Rattle.text.specs.Claim.{declared_by};
ghost use Rattle.theory.specs.Kind.{BoolVar, BvVar};
ghost use Rattle.theory.specs.Optional.{either};
ghost use Rattle.names.specs.Kinds.{declared_in, told_op, op_of};
ghost use Rattle.names.specs.Names.{told_sort, told_declaration};

use crate::kinds::{Operator, read_index};
use crate::lines::Lines;
use crate::marks::{at_end, first_word, left_after, right_after, word_after};
use crate::symbols::{is_symbol, reserved};
use terms::kind::Kind;

// A sort: the width of a vector, none for Bool, and what stands after it.
#[derive(Clone, Copy)]
pub struct Sort<'a> {
    pub width: Option<u64>,
    pub rest: &'a [u8],
}

// What a line declares: the name, and the width of a vector, none for Bool.
#[derive(Clone, Copy)]
pub struct Declaration<'a> {
    pub name: &'a [u8],
    pub width: Option<u64>,
}

// A sort: Bool, or (_ BitVec n).
#[tactic(auto, using(crate::proofs::Sets::laws), unfolding(text::specs::Reading::sort_in))]
fn read_sort(line: &[u8]) -> Option<Sort<'_>>
    ensures { told_sort result ≡ sort_in line.now }
{
    if let Some(rest) = word_after(line, b"Bool") {
        return Some(Sort { width: None, rest });
    }
    let a = left_after(line)?;
    let b = word_after(a, b"_")?;
    let c = word_after(b, b"BitVec")?;
    let index = read_index(c)?;
    let rest = right_after(index.rest)?;
    Some(Sort {
        width: Some(index.number),
        rest,
    })
}

// What a line declares.
pub fn declared_by(line: &[u8]) -> Option<Declaration<'_>>
    ensures { told_declaration result ≡ declared_by line.now }
{
    let a = left_after(line)?;
    let b = word_after(a, b"declare-const")?;
    let (name, rest) = first_word(b)?;
    let sort = read_sort(rest)?;
    let last = right_after(sort.rest)?;
    if !at_end(last) {
        return None;
    }
    if !is_symbol(name) {
        return None;
    }
    if reserved(name) {
        return None;
    }
    Some(Declaration {
        name,
        width: sort.width,
    })
}

// Variable k.
pub fn variable(k: u64, width: Option<u64>) -> Operator
    ensures { op_of result ≡ either (BoolVar k) (λ n. BvVar n k) width }
{
    match width {
        Some(n) => Operator::Of(Kind::BvVar, n, k),
        None => Operator::Of(Kind::BoolVar, k, 0),
    }
}

// The variable of a name among those that `declarations` declare.
pub fn find_name(declarations: &[u8], word: &[u8]) -> Option<Operator>
    ensures { told_op result ≡ find_name 0 word.now (declared_in declarations.now) }
{
    // Names are symbols: a constant is none, and costs no walk over the declarations.
    if !is_symbol(word) {
        return None;
    }
    let declared = Lines::new(declarations).filter_map(|line| declared_by(line));
    let (k, d) = declared.enumerate().find(|(_, d)| word == d.name)?;
    Some(variable(k as u64, d.width))
}
