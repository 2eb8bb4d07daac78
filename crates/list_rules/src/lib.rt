// The rules of operations that take an argument list: and, or, xor, mult and add. Each judges a
// step's literal, and returns the verdict on it.
#![tactic(auto, unfolding(theory::specs::Rule::verdict, theory::specs::Rule::on_sides))]

mod arithmetic;
mod bitwise;
mod folds;

ghost use Rattle.std.specs.Prelude.{◌≡◌};
ghost use Rattle.theory.specs.RuleTable.{by_and, by_or, by_xor, by_mult, by_add};
ghost use Rattle.theory.specs.Rule.{verdict};
ghost use Rattle.operand_rules.specs.Literal.{literal_term};
ghost use Rattle.operand_rules.specs.Rules.{verdict_of};

use crate::arithmetic::{Product, Sum};
use crate::bitwise::{Conjunction, Disjunction, ExclusiveOr};
use crate::folds::rule;
use operand_rules::Verdict;
use operand_rules::literal::Literal;

// and: (= (bvand x ..) claim).
pub fn and(literal: &Literal) -> Verdict
    ensures { verdict_of result ≡ verdict by_and (literal_term literal.now) }
{
    rule::<Conjunction>(literal)
}

// or: (= (bvor x ..) claim).
pub fn or(literal: &Literal) -> Verdict
    ensures { verdict_of result ≡ verdict by_or (literal_term literal.now) }
{
    rule::<Disjunction>(literal)
}

// xor: (= (bvxor x ..) claim).
pub fn xor(literal: &Literal) -> Verdict
    ensures { verdict_of result ≡ verdict by_xor (literal_term literal.now) }
{
    rule::<ExclusiveOr>(literal)
}

// mult: (= (bvmul x ..) claim).
pub fn mult(literal: &Literal) -> Verdict
    ensures { verdict_of result ≡ verdict by_mult (literal_term literal.now) }
{
    rule::<Product>(literal)
}

// add: (= (bvadd x ..) claim).
pub fn add(literal: &Literal) -> Verdict
    ensures { verdict_of result ≡ verdict by_add (literal_term literal.now) }
{
    rule::<Sum>(literal)
}
