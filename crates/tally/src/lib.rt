// The tally that a host lends: what the jobs of its service came to, counted field by field.
#![tactic(auto)]

ghost use Rattle.std.specs.Prelude.{◌≡◌, cond, ◌*◌, ◌≤◌, length};
ghost use Rattle.theory.specs.Limit.{answer_bytes};
ghost use Rattle.terms.specs.Bodies.{Length};
ghost use Rattle.theory.proofs.Facts.{kept_facts};
ghost use Rattle.theory.specs.Tally.{how_many, tally_after};
ghost use Rattle.tally.specs.Counted.{as_tally, class_of, belongs, depth_length, answers_in};

use terms::{CODE_AT, DEPTH_AT, Term};

// Jobs, and their answers by class of code. Each field saturates.
#[repr(C)]
#[derive(Clone, Copy)]
pub struct Tally {
    pub jobs: u64,
    pub held: u64,
    pub form_only: u64,
    pub refused: u64,
}

// What a code says of a step: that it is held (code 0), accepted for its form only (code 1), or
// refused (every other code).
#[derive(Clone, Copy, Debug, PartialEq, Eq)]
pub enum Class {
    Held,
    FormOnly,
    Refused,
}

impl From<u32> for Class {
    ghost from_gives = { λ code class. class ≡ class_of code };

    fn from(code: u32) -> Self {
        match code {
            0 => Class::Held,
            1 => Class::FormOnly,
            _ => Class::Refused,
        }
    }
}

impl Tally {
    // One more job, with its first `count` answers by their codes; where the memory is shorter,
    // the answers that it has whole. Each field saturates.
    pub fn add(&mut self, answers: &[u8], count: u32)
        ensures { as_tally self.new
            ≡ tally_after (as_tally self.old) (answers_in count answers.now) }
    {
        let counted = WholeAnswers::new(answers, count);
        self.jobs = self.jobs.saturating_add(1);
        self.held = self.held.saturating_add(counted.of(Class::Held));
        self.form_only = self.form_only.saturating_add(counted.of(Class::FormOnly));
        self.refused = self.refused.saturating_add(counted.of(Class::Refused));
    }
}

// The length of an answer of a job with long numbers, which does not count its own bytes.
const LONG_ANSWER: usize = DEPTH_AT + Term::LONG_BYTES - Term::NUMBER_BYTES;

// The bytes of a depth in these answers, by the length that the first of them says.
#[tactic(auto, using(std::proofs::lemmas::Bool::Decides::nat_tests), unfolding(crate::specs::Counted::depth_length))]
fn depth_length(answers: &[u8]) -> usize
    ensures is { result ≡ depth_length answers.now }
    ensures sized { Length result }
{
    if Term::number(answers, 0) as usize == LONG_ANSWER {
        Term::LONG_BYTES
    } else {
        Term::NUMBER_BYTES
    }
}

// 1 where the code is of the class, else 0.
fn one_if(code: u32, class: Class) -> u64
    ensures one { result ≡ cond (belongs class code) 1 0 }
    ensures small { result ≤ 1 }
{
    u64::from(Class::from(code) == class)
}

// So many answers, which the memory has whole, each with a depth of so many bytes.
#[derive(Clone, Copy)]
struct WholeAnswers<'a> {
    memory: &'a [u8],
    bytes: usize,
    count: usize,
    ghost sized: { Length bytes } by { Prim.hlevel kept_facts },
    ghost room: { count * answer_bytes bytes ≤ length memory.now } by { Prim.hlevel kept_facts },
}

impl<'a> WholeAnswers<'a> {
    ghost use Rattle.tally.specs.Listed.{listed};

    // The first `count`, or the whole ones where the memory is shorter.
    fn new(memory: &'a [u8], count: u32) -> WholeAnswers<'a>
        ensures { listed result ≡ answers_in count memory.now }
    {
        let bytes = depth_length(memory);
        let count = (count as usize).min(memory.len() / (DEPTH_AT + bytes));
        WholeAnswers {
            memory,
            bytes,
            count,
        }
    }

    // How many have a code of the class.
    fn of(&self, class: Class) -> u64
        ensures { result ≡ how_many (belongs class) (listed self.now) }
    {
        let size = DEPTH_AT + self.bytes;
        let mut n: u64 = 0;
        for answer in self.memory.chunks_exact(size).take(self.count) {
            n += one_if(Term::number(answer, CODE_AT), class);
        }
        n
    }
}
