// Terms of kinds that are not refused.
ghost use Rattle.partial.specs.Levels.{IsBitLevel};

use marks::Asked;
use ternary::kinds::is_bit_kind;

// Is the asked term of such kinds alone?
pub fn is_bit_level(asked: &Asked) -> bool
    ensures { IsBitLevel asked.now result }
{
    asked.places().all(|k| is_bit_kind(&asked.terms, k))
}
