// Document 02's codes that refuse a question about a job's final store; code 0 refuses none.
ghost use Rattle.std.specs.Prelude.{◌≡◌};
ghost use Rattle.terms.specs.Numbered.{refusal_code};

// Why a question is refused, by its code.
#[derive(Clone, Copy, Debug, PartialEq, Eq)]
pub enum Refusal {
    // the job stopped early, there is no such term, or its variables have too many bits
    NotAsked = 20,
    // the value buffer is too short
    NoCells = 21,
    // the run of counts is too short
    NoCounts = 22,
    // the term, the bytes of its inputs, or the output do not fit
    NotDerived = 23,
}

// Its code.
impl From<Refusal> for u32 {
    ghost from_gives = { λ refusal code. code ≡ refusal_code refusal };

    fn from(refusal: Refusal) -> Self {
        refusal as u32
    }
}
