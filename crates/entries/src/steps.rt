// A step line.
ghost use Rattle.std.specs.Prelude.{◌≡◌, Bool};
ghost use Rattle.text.specs.Reading.{step_front, step_back};
ghost use Rattle.text.specs.Convert.{state, take_step};
ghost use Rattle.names.specs.Kinds.{declared_in};
ghost use Rattle.names.specs.Marks.{rest_of};
ghost use Rattle.writer.specs.Written.{job_of, room, Moved};
ghost use Rattle.entries.specs.Steps.{told_step};

use names::marks::{at_end, first_word, left_after, right_after, word_after};
use names::symbols::is_symbol;
use reader::reading::read_term;
use words::tables::rule_named;
use writer::places::Writer;

// The deepest nesting.
const MAX_NESTING: usize = 200;

// name (cl before the literal: what stands after it.
#[tactic(auto, using(crate::proofs::Sets::laws), unfolding(text::specs::Reading::step_front))]
fn step_front(line: &[u8]) -> Option<&[u8]>
    ensures { rest_of result ≡ step_front line.now }
{
    let (name, rest) = first_word(line)?;
    if !is_symbol(name) {
        return None;
    }
    let a = left_after(rest)?;
    word_after(a, b"cl")
}

// ) :rule name) after the literal: the rule's number.
#[tactic(auto, using(crate::proofs::Sets::laws), unfolding(text::specs::Reading::step_back))]
fn step_back(line: &[u8]) -> Option<u32>
    ensures { result ≡ step_back line.now }
{
    let a = right_after(line)?;
    let b = word_after(a, b":rule")?;
    let (name, rest) = first_word(b)?;
    let c = right_after(rest)?;
    if !at_end(c) {
        return None;
    }
    rule_named(name)
}

// A step after `(step`: its literal is read and put, then the step, if all of it fits. Whether a
// step was read before does not matter.
pub fn take_step(line: &[u8], declarations: &[u8], writer: &mut Writer<'_>) -> Option<()>
    ensures moved { Moved writer.old writer.new }
    ensures takes { (begun : Bool) → told_step (declared_in declarations.now) writer.new result
        ≡ take_step (room writer.old)
        (state (declared_in declarations.now) begun (job_of writer.old)) line.now }
{
    let front = step_front(line)?;
    let literal = read_term(front, MAX_NESTING, declarations, writer)?;
    let rule = step_back(literal.rest)?;
    writer.put_step(rule, literal.number)
}
