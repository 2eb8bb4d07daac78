// The tally, changed in its own fields after a job.
ghost use Rattle.std.specs.Prelude.{◌≡◌};
ghost use Rattle.theory.specs.Tally.{tally_after};
ghost use Rattle.tally.specs.Counted.{as_tally, answers_in};

use tally::Tally;

// One more job, with its first `count` answers by their codes; where the memory is shorter, the
// answers that it has whole.
pub fn bb_tally(tally: &mut Tally, answers: &[u8], count: u32)
    ensures { as_tally tally.new
        ≡ tally_after (as_tally tally.old) (answers_in count answers.now) }
{
    tally.add(answers, count);
}
