// The records of a job, one after the other, up to its end or to the record that stops it.
ghost use Rattle.std.specs.Prelude.{◌≡◌, None, Err, ◌≤◌, length};
ghost use Rattle.theory.specs.Limit.{max_job};
ghost use Rattle.intern.specs.Interning.{limits_of};
ghost use Rattle.runs.specs.Walking.{Standing, Next, stood, Walked};

use intern::Limits;
use records::take_record;
use terms::Term;
use terms::stop::Stop;

// Where a job stands: the place of the next record, why the job stopped, the records done, the
// answers written, the rows kept, the repeats.
#[derive(Clone, Copy)]
pub struct State {
    pub at: usize,
    pub stop: Option<Stop>,
    pub records: usize,
    pub answers: usize,
    pub rows: usize,
    pub repeats: usize,
}

impl State {
    ghost use Rattle.runs.specs.Walking.{state};

    // Before the first record.
    pub(crate) fn start() -> State
        ensures { result ≡ state 0 None 0 0 0 0 }
    {
        State {
            at: 0,
            stop: None,
            records: 0,
            answers: 0,
            rows: 0,
            repeats: 0,
        }
    }
}

// Takes the record where the job stands: `Cut` where no whole record is there. A record that stops
// the job leaves it where it stands.
fn next(
    job: &[u8],
    work: &mut [u8],
    answers: &mut [u8],
    limits: Limits,
    s: &mut State,
) -> Result<(), Stop>
    requires { Standing job.now work.old answers.old s.old }
    ensures next { Next (limits_of limits) job.now work.old answers.old s.old
        work.new answers.new (stood s.new result) }
    ensures stays { (stop : Stop) → result ≡ Err stop → s.new ≡ s.old }
{
    let size = Term::frame(job, s.at).ok_or(Stop::Cut)?;
    let t = take_record(
        job, work, answers, limits, s.rows, s.answers, s.records, s.at,
    )?;
    s.at += size;
    s.records += 1;
    s.answers = t.answers;
    s.rows = t.rows;
    s.repeats += t.repeats;
    Ok(())
}

// Takes all records of a job, under limits that the caller states. How long a record is, it says
// itself.
pub fn walk(job: &[u8], work: &mut [u8], answers: &mut [u8], limits: Limits) -> State
    requires { length job.now ≤ max_job }
    ensures { Walked (limits_of limits) job.now work.old answers.old
        work.new answers.new result }
{
    intern::start(job, work);
    let mut s = State::start();
    while s.at < job.len() {
        if let Err(stop) = next(job, work, answers, limits, &mut s) {
            s.stop = Some(stop);
            return s;
        }
    }
    s
}
