// Which earlier steps may be premises, and what they show.
ghost use Rattle.std.specs.Prelude.{◌≡◌, true, ◌+◌, ◌<◌, IfSome, option_map, drop};
ghost use Rattle.std.proofs.Math.Bool.{Bool-set};
ghost use Rattle.std.proofs.Math.Dec.{T_prop};
ghost use Rattle.theory.specs.Limit.{first_terms};
ghost use Rattle.theory.specs.Optional.{is_some};
ghost use Rattle.theory.specs.Record.{whole, number_length};
ghost use Rattle.theory.specs.Chain.{premise_place};
ghost use Rattle.theory.proofs.Facts.{kept_facts};
ghost use Rattle.terms.specs.Decoded.{Inside};
ghost use Rattle.chains.specs.Premises.{claimed_at, Noted};

use operand_rules::Verdict;
use rows::{FIRST_PLACE, offset_at};
use steps::answers::Answers;
use store::shelf::Terms;
use terms::{Args, Item, Term};

// The literal that the whole record at `at` claims: the first of a step, the only one of a chain.
fn claimed(job: &[u8], at: usize) -> Option<u32>
    requires { whole (drop at job.now) ≡ true }
    ensures { result ≡ claimed_at job.now at }
{
    match Term::read(job, at) {
        Ok(Item::Step(_, literals)) => {
            if literals.count == 0 {
                return None;
            }
            Some(Term::argument(job, literals, 0))
        }
        Ok(Item::Chain(_, _, literal)) => Some(literal),
        Ok(Item::Term(_)) => None,
        Ok(Item::Back(_)) => None,
        Err(_) => None,
    }
}

// What a chain knows of the steps before it: the kept terms, and the answers so far, each of which
// holds the place of its step's record.
#[derive(Clone, Copy)]
pub struct Past<'a, 'b> {
    pub terms: Terms<'a>,
    pub answers: Answers<'b>,
    pub ghost noted: { Noted terms.job.now terms.work.now answers.memory.now terms.rows answers.count } by { Prim.hlevel (kept_facts, Bool-set, T_prop) },
    pub ghost depth_bytes: { answers.bytes ≡ number_length terms.job.now } by { Prim.hlevel kept_facts },
}

impl<'a, 'b> Past<'a, 'b> {
    ghost use Rattle.chains.specs.Told.{earlier_told, is_before, premises_told};
    ghost use Rattle.chains.specs.Told.{sides_told, sides_of};

    // Is there a term at that place, and does its record stand before the place `at` of the job?
    // `true` and `false` are there from the start.
    fn kept_before(&self, place: u32, at: usize) -> bool
        ensures { result ≡ is_before self.now place at }
    {
        let p = place as usize;
        if p < FIRST_PLACE {
            return true;
        }
        if self.terms.rows <= p - FIRST_PLACE {
            return false;
        }
        offset_at(self.terms.job, self.terms.work, p - FIRST_PLACE) < at
    }

    // The literal of the earlier step with that number, counted from 1, where the step is held and
    // the literal not dropped since.
    pub fn premise_at(&self, number: u32) -> Option<u32>
        ensures { result ≡ premise_place (earlier_told self.now) number }
    {
        if number == 0 {
            return None;
        }
        let k = number as usize - 1;
        if self.answers.count <= k {
            return None;
        }
        if self.answers.code_at(k) != Verdict::Held as usize {
            return None;
        }
        let at = self.answers.place_at(k);
        let p = claimed(self.terms.job, at)?;
        self.kept_before(p, at).then_some(p)
    }

    // May each of these be a premise?
    pub fn all_stand(&self, premises: Args) -> bool
        requires { Inside self.now.terms.job.now premises }
        ensures { result ≡ is_some (premises_told self.now premises) }
    {
        premises
            .numbers(self.terms.job)
            .all(|k| self.premise_at(k).is_some())
    }

    // The sides of the premise with that number, where it may be one and is an equality.
    pub fn sides_at(&self, number: u32) -> Option<(u32, u32)>
        ensures below { IfSome result (λ s. (s.0 < first_terms + self.now.terms.rows)
            × (s.1 < first_terms + self.now.terms.rows)) }
        ensures sides { option_map (sides_of self.now) result ≡ sides_told self.now number }
    {
        let p = self.premise_at(number)?;
        let Term::Equals(l, r) = self.terms.term_on(p) else {
            return None;
        };
        Some((l, r))
    }
}
