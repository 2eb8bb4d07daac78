// The three rules, on the numbers of terms: equal terms have equal numbers.
ghost use Rattle.std.specs.Prelude.{◌≡◌, ◌+◌, ◌<◌};
ghost use Rattle.theory.specs.Limit.{first_terms};
ghost use Rattle.theory.specs.Term.{same_op};
ghost use Rattle.theory.specs.RuleTable.{by_symm, by_trans, by_cong};
ghost use Rattle.theory.proofs.Facts.{kept_facts};
ghost use Rattle.terms.specs.Decoded.{op_of, numbers_of};
ghost use Rattle.store.specs.KeptTerms.{kept_terms, kept_term};
ghost use Rattle.chains.specs.Premises.{is_equality, leads_in, argued};
ghost use Rattle.chains.specs.Rules.{rule_of};
ghost use Rattle.chains.specs.Told.{sides_told, Joining, Arguing};

use crate::ChainRule;
use crate::premises::Past;
use intern::arguments::{count, operand};
use terms::{Args, Operands, Term};

// Is the premise with that number the equality of these two?
fn shows(past: &Past, number: u32, l: u32, r: u32) -> bool
    requires left { l < first_terms + past.now.terms.rows }
    requires right { r < first_terms + past.now.terms.rows }
    ensures { result ≡ is_equality (kept_term past.now.terms l) (kept_term past.now.terms r)
        (sides_told past.now number) }
{
    past.sides_at(number) == Some((l, r))
}

// Are the two terms of one kind, with the same numbers in it?
#[tactic(auto, using(terms::proofs::Heads::same_heads))]
fn same_kind(s: Term, t: Term) -> bool
    ensures { result ≡ same_op (op_of s) (op_of t) }
{
    s.head() == t.head()
}

// What a chain claims: that its premises join to the equality of the terms at two places.
#[derive(Clone, Copy)]
pub struct Claim<'a, 'b, 'c> {
    pub past: &'c Past<'a, 'b>,
    pub premises: Args,
    pub left: u32,
    pub right: u32,
    pub ghost joining: { Joining past.now premises left right } by { Prim.hlevel kept_facts },
}

impl<'a, 'b, 'c> Claim<'a, 'b, 'c> {
    ghost use Rattle.chains.specs.Claims.{claim_joins, claim_sides};

    // Do the premises join to the claim by that rule?
    pub(crate) fn joins_by(&self, rule: ChainRule) -> bool
        ensures { result ≡ claim_joins self.now (rule_of rule) }
    {
        match rule {
            ChainRule::Symm => self.symm(),
            ChainRule::Trans => self.trans(),
            ChainRule::Cong => self.cong(),
        }
    }

    // symm: one premise, with the sides of the claim turned round.
    pub fn symm(&self) -> bool
        ensures { result ≡ claim_joins self.now by_symm }
    {
        if self.premises.count != 1 {
            return false;
        }
        let past = self.past;
        let number = Term::argument(past.terms.job, self.premises, 0);
        shows(past, number, self.right, self.left)
    }

    // trans: two premises or more, each beginning where the one before it ends.
    pub fn trans(&self) -> bool
        ensures { result ≡ claim_joins self.now by_trans }
    {
        if self.premises.count < 2 {
            return false;
        }
        self.leads()
    }

    // Do the premises lead from the left side to the right one?
    fn leads(&self) -> bool
        ensures { result ≡ leads_in (kept_term self.now.past.now.terms self.now.left)
            (claim_sides self.now) (kept_term self.now.past.now.terms self.now.right) }
    {
        let past = self.past;
        let mut at = self.left;
        for number in self.premises.numbers(past.terms.job) {
            let Some((a, b)) = past.sides_at(number) else {
                return false;
            };
            if a != at {
                return false;
            }
            at = b;
        }
        at == self.right
    }

    // cong: one premise for each argument of one operation.
    pub fn cong(&self) -> bool
        ensures { result ≡ claim_joins self.now by_cong }
    {
        let past = self.past;
        let s = past.terms.term_on(self.left);
        let t = past.terms.term_on(self.right);
        if !same_kind(s, t) {
            return false;
        }
        self.argument_wise(s.operands(), t.operands())
    }

    // Is each premise the equality of the arguments at its place?
    fn argument_wise(&self, xs: Operands, ys: Operands) -> bool
        requires { Arguing self.now.past.now xs ys }
        ensures { result ≡ argued (kept_terms self.now.past.now.terms) (claim_sides self.now)
            (numbers_of self.now.past.now.terms.job.now xs)
            (numbers_of self.now.past.now.terms.job.now ys) }
    {
        if count(xs) != self.premises.count {
            return false;
        }
        if count(ys) != self.premises.count {
            return false;
        }
        let past = self.past;
        let job = past.terms.job;
        for i in 0..self.premises.count {
            let number = Term::argument(job, self.premises, i);
            if !shows(past, number, operand(job, xs, i), operand(job, ys, i)) {
                return false;
            }
        }
        true
    }
}
