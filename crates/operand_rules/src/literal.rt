// The literal of a step, which a rule judges.
ghost use Rattle.std.specs.Prelude.{◌+◌, ◌<◌};
ghost use Rattle.theory.specs.Limit.{first_terms};

use store::gates::Kept;

// The kept terms, and the place of the literal among them.
#[derive(Clone, Copy)]
pub struct Literal<'a> {
    pub kept: Kept<'a>,
    pub place: u32,
    ghost below: { place < first_terms + kept.lookup.rows },
}

impl<'a> Literal<'a> {
    ghost use Rattle.operand_rules.specs.Literal.{Stands};

    // The literal at a place of these terms.
    pub fn new(kept: &Kept<'a>, place: u32) -> Literal<'a>
        requires { place < first_terms + kept.now.lookup.rows }
        ensures { Stands result kept.now place }
    {
        Literal { kept: *kept, place }
    }
}
