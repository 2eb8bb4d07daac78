// The answers' memory: for each answer four numbers of two bytes, and a depth of as many bytes as
// a term's number has. While the job runs, the bytes of an answer's length and kind hold the place
// of its step's record in the job, by which a chain finds the literals of its premises; they are
// written when the job has ended.
ghost use Rattle.std.specs.Prelude.{◌≡◌, [], ◌∷◌, suc, ◌*◌, ◌≤◌, ◌<◌, length};
ghost use Rattle.theory.specs.Limit.{answer_bytes, max_job};
ghost use Rattle.theory.proofs.Facts.{kept_facts};
ghost use Rattle.terms.specs.Bodies.{Length};
ghost use Rattle.rows.specs.Layout.{Bounded, number_end};
ghost use Rattle.steps.specs.Answering.{noted, step_place, step_code, with_notes, sealed};

use operand_rules::Verdict;
use rows::bytes::{number, put_number};
use rows::layout::OFFSET_BYTES;
use terms::{ANSWER_KIND_AT, CODE_AT, DEPTH_AT, RULE_AT, Term};

// The answer to a step, but for its rule: the verdict, and a depth.
#[derive(Clone, Copy)]
pub struct Reply {
    pub verdict: Verdict,
    pub depth: usize,
}

// An answer's kind.
const ANSWER_KIND: usize = 200;

// Stores answer k while the job runs: the place of the step's record, the rule, the code and the
// depth.
pub fn put_answer(
    d: &mut [u8],
    bytes: usize,
    k: usize,
    place: usize,
    rule: u32,
    code: u32,
    depth: usize,
)
    requires sized { Length bytes }
    requires room { answer_bytes bytes * suc k ≤ length d.old }
    ensures { d.new ≡ with_notes bytes d.old k place (noted rule code depth ∷ []) }
{
    let at = (DEPTH_AT + bytes) * k;
    put_number(d, at, RULE_AT, place);
    put_number(d, at + RULE_AT, Term::NUMBER_BYTES, rule as usize);
    put_number(d, at + CODE_AT, Term::NUMBER_BYTES, code as usize);
    put_number(d, at + DEPTH_AT, bytes, depth);
}

// The answers so far, as they stand while the job runs, each with a depth of so many bytes.
#[derive(Clone, Copy)]
pub struct Answers<'a> {
    pub memory: &'a [u8],
    pub bytes: usize,
    pub count: usize,
    pub ghost sized: { Length bytes } by { Prim.hlevel kept_facts },
    pub ghost roomy: { answer_bytes bytes * count ≤ length memory.now } by { Prim.hlevel kept_facts },
}

impl<'a> Answers<'a> {
    // The place of the record of answer k's step.
    pub fn place_at(&self, k: usize) -> usize
        requires { k < self.now.count }
        ensures { Bounded result (step_place self.now.bytes self.now.memory.now k) max_job }
    {
        number(self.memory, (DEPTH_AT + self.bytes) * k, OFFSET_BYTES)
    }

    // The code of answer k.
    pub fn code_at(&self, k: usize) -> usize
        requires { k < self.now.count }
        ensures { Bounded result (step_code self.now.bytes self.now.memory.now k) number_end }
    {
        let at = (DEPTH_AT + self.bytes) * k + CODE_AT;
        number(self.memory, at, Term::NUMBER_BYTES)
    }
}

// Writes the length and the kind of the first n answers.
pub fn seal(d: &mut [u8], bytes: usize, n: usize)
    requires sized { Length bytes }
    requires there { answer_bytes bytes * n ≤ length d.old }
    ensures { d.new ≡ sealed bytes n d.old }
{
    let size = DEPTH_AT + bytes;
    for k in 0..n {
        let head = size * k;
        // The length does not count its own bytes.
        put_number(d, head, Term::NUMBER_BYTES, size - Term::NUMBER_BYTES);
        put_number(d, head + ANSWER_KIND_AT, Term::NUMBER_BYTES, ANSWER_KIND);
    }
}
