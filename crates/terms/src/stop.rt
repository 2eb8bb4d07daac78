// Document 01's codes that stop a job. Code 0 stops none; the codes of answers stand in crate
// steps, beside the verdicts that they are of.
ghost use Rattle.std.specs.Prelude.{◌≡◌};
ghost use Rattle.terms.specs.Numbered.{stop_code};

// Why a job stops, by its code.
#[derive(Clone, Copy, Debug, PartialEq, Eq)]
pub enum Stop {
    // the job has too many bytes
    TooLong = 2,
    // what is left is no whole record
    Cut = 3,
    // there is no such kind, or not here
    Unknown = 4,
    // the body has not the length of its kind
    Misfit = 5,
    // an argument or a literal is no kept term
    NoTerm = 6,
    // a sort, width, index or value does not fit
    Unsorted = 7,
    // there is no memory, or no number, for a new term
    Spent = 8,
    // there is no such rule
    NoRule = 9,
    // a back keeps fewer terms than two, or more than there are
    NoBack = 18,
    // there is no room for an answer
    NoRoom = 19,
}

// Its code.
impl From<Stop> for u32 {
    ghost from_gives = { λ stop code. code ≡ stop_code stop };

    fn from(stop: Stop) -> Self {
        stop as u32
    }
}
