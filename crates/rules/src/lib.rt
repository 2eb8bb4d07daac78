// The 30 rules, by their numbers.
#![tactic(auto)]

ghost use Rattle.std.specs.Prelude.{◌≡◌};
ghost use Rattle.theory.specs.Rule.{verdict as rule_verdict};
ghost use Rattle.terms.specs.declared.stop.Stop.TheVariants as S;
ghost use Rattle.operand_rules.specs.Literal.{literal_term};
ghost use Rattle.operand_rules.specs.Rules.{verdict_of};
ghost use Rattle.rules.specs.Rules.{rule_of, Decodes};

pub use list_rules::{add, and, mult, or, xor};
pub use operand_rules::Verdict;
pub use operand_rules::bitwise::{neg, not, xnor};
pub use operand_rules::comparisons::{slt, ult};
pub use operand_rules::equations::{comp, equality};
pub use operand_rules::literal::Literal;
pub use operand_rules::variables::var;
pub use shift_rules::division::{udiv, udiv_standard, urem, urem_standard};
pub use shift_rules::shifts::{ashr, ashr_standard, lshr, shl};
pub use slice_rules::constants::value;
pub use slice_rules::moves::{repeat, rotate_left, rotate_right, zero_extend};
pub use slice_rules::parts::{concat, extract, sign_extend};
pub use slice_rules::slicing::bitwise_slicing;
use terms::stop::Stop;

// The rules of steps.
#[derive(Clone, Copy, Debug, PartialEq, Eq)]
pub enum Rule {
    Value,
    Var,
    And,
    Or,
    Xor,
    Xnor,
    Not,
    Ult,
    Slt,
    Add,
    Mult,
    Neg,
    Equality,
    Comp,
    Extract,
    Concat,
    SignExtend,
    Shl,
    Lshr,
    Ashr,
    Udiv,
    Urem,
    BitwiseSlicing,
    UdivStandard,
    UremStandard,
    AshrStandard,
    ZeroExtend,
    RotateLeft,
    RotateRight,
    Repeat,
}

// A number that no rule has.
#[derive(Clone, Copy, Debug, PartialEq, Eq)]
pub struct UnknownRule(pub u32);

impl TryFrom<u32> for Rule {
    type Error = UnknownRule;

    ghost try_from_gives = { Decodes };

    fn try_from(number: u32) -> Result<Self, UnknownRule> {
        match number {
            1 => Ok(Rule::Value),
            2 => Ok(Rule::Var),
            3 => Ok(Rule::And),
            4 => Ok(Rule::Or),
            5 => Ok(Rule::Xor),
            6 => Ok(Rule::Xnor),
            7 => Ok(Rule::Not),
            8 => Ok(Rule::Ult),
            9 => Ok(Rule::Slt),
            10 => Ok(Rule::Add),
            11 => Ok(Rule::Mult),
            12 => Ok(Rule::Neg),
            13 => Ok(Rule::Equality),
            14 => Ok(Rule::Comp),
            15 => Ok(Rule::Extract),
            16 => Ok(Rule::Concat),
            17 => Ok(Rule::SignExtend),
            18 => Ok(Rule::Shl),
            19 => Ok(Rule::Lshr),
            20 => Ok(Rule::Ashr),
            21 => Ok(Rule::Udiv),
            22 => Ok(Rule::Urem),
            23 => Ok(Rule::BitwiseSlicing),
            24 => Ok(Rule::UdivStandard),
            25 => Ok(Rule::UremStandard),
            26 => Ok(Rule::AshrStandard),
            27 => Ok(Rule::ZeroExtend),
            28 => Ok(Rule::RotateLeft),
            29 => Ok(Rule::RotateRight),
            30 => Ok(Rule::Repeat),
            _ => Err(UnknownRule(number)),
        }
    }
}

impl From<UnknownRule> for Stop {
    ghost from_gives = { λ _ stop. stop ≡ S.NoRule };

    fn from(_unknown: UnknownRule) -> Self {
        Stop::NoRule
    }
}

// The verdict of a rule on a literal.
pub fn verdict(rule: Rule, literal: &Literal) -> Verdict
    ensures { verdict_of result ≡ rule_verdict (rule_of rule) (literal_term literal.now) }
{
    match rule {
        Rule::Value => value(literal),
        Rule::Var => var(literal),
        Rule::And => and(literal),
        Rule::Or => or(literal),
        Rule::Xor => xor(literal),
        Rule::Xnor => xnor(literal),
        Rule::Not => not(literal),
        Rule::Ult => ult(literal),
        Rule::Slt => slt(literal),
        Rule::Add => add(literal),
        Rule::Mult => mult(literal),
        Rule::Neg => neg(literal),
        Rule::Equality => equality(literal),
        Rule::Comp => comp(literal),
        Rule::Extract => extract(literal),
        Rule::Concat => concat(literal),
        Rule::SignExtend => sign_extend(literal),
        Rule::Shl => shl(literal),
        Rule::Lshr => lshr(literal),
        Rule::Ashr => ashr(literal),
        Rule::Udiv => udiv(literal),
        Rule::Urem => urem(literal),
        Rule::BitwiseSlicing => bitwise_slicing(literal),
        Rule::UdivStandard => udiv_standard(literal),
        Rule::UremStandard => urem_standard(literal),
        Rule::AshrStandard => ashr_standard(literal),
        Rule::ZeroExtend => zero_extend(literal),
        Rule::RotateLeft => rotate_left(literal),
        Rule::RotateRight => rotate_right(literal),
        Rule::Repeat => repeat(literal),
    }
}
