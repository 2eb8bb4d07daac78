// The rule value.
ghost use Rattle.std.specs.Prelude.{◌≡◌, map};
ghost use Rattle.theory.specs.Optional.{collect};
ghost use Rattle.theory.specs.RuleTable.{by_value};
ghost use Rattle.theory.specs.Rule.{value_bits, verdict};
ghost use Rattle.terms.specs.Decoded.{Inside, words_in};
ghost use Rattle.operand_rules.specs.Literal.{literal_term};
ghost use Rattle.operand_rules.specs.Rules.{verdict_of};
ghost use Rattle.slice_rules.specs.Given.{literal_number};

use operand_rules::Verdict;
use operand_rules::literal::Literal;
use store::gates::{FALSE, TRUE};
use terms::{Args, Term};

// The bit that a term is literally.
fn literal_bit(place: u32) -> Option<bool>
    ensures { result ≡ literal_number place }
{
    match place {
        TRUE => Some(true),
        FALSE => Some(false),
        _ => None,
    }
}

// Each bit is literally `true` or `false`, and they have this value.
fn value_check(job: &[u8], list: Args, value: u64) -> Verdict
    requires { Inside job.now list }
    ensures { verdict_of result
        ≡ value_bits value (collect (map literal_number (words_in job.now list))) }
{
    let mut sum: u64 = 0;
    for x in list.numbers(job).rev() {
        let Some(bit) = literal_bit(x) else {
            return Verdict::BitNotLiteral;
        };
        sum = 2 * sum + u64::from(bit);
    }
    if value == sum {
        Verdict::Held
    } else {
        Verdict::OtherValue
    }
}

// value: (= c (bbterm ..)), c a constant.
pub fn value(literal: &Literal) -> Verdict
    ensures { verdict_of result ≡ verdict by_value (literal_term literal.now) }
{
    let kept = &literal.kept;
    let Term::Equals(l, r) = kept.term_at(literal.place) else {
        return Verdict::WrongForm;
    };
    let Term::BvBbTerm(bits) = kept.term_at(r) else {
        return Verdict::WrongForm;
    };
    let Term::Const(_, number) = kept.term_at(l) else {
        return Verdict::NotConstant;
    };
    value_check(kept.lookup.job, bits, number)
}
