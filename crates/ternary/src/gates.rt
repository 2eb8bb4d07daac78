// Gates over bits of which some are not known: None is a bit that is not known.
ghost use Rattle.std.specs.Prelude.{◌≡◌, [], ◌∷◌};
ghost use Rattle.sweeps.specs.Known.{not_known, xor_known, equal_known, ite_known};
ghost use Rattle.ternary.specs.Gates.{bit_of, row_known};

// Not.
pub fn not_bit(x: Option<bool>) -> Option<bool>
    ensures { bit_of result ≡ not_known (bit_of x) }
{
    Some(!x?)
}

// And (or Or) of one bit and what the others come to: 0 decides an And, and 1 an Or.
#[tactic(auto, unfolding(sweeps::specs::Known::and_known, sweeps::specs::Known::or_known))]
pub fn join(or: bool, x: Option<bool>, y: Option<bool>) -> Option<bool>
    ensures { bit_of result ≡ row_known or (bit_of x ∷ bit_of y ∷ []) }
{
    if x == Some(or) || y == Some(or) {
        return Some(or);
    }
    x.and(y)
}

// Xor.
pub fn xor_bit(x: Option<bool>, y: Option<bool>) -> Option<bool>
    ensures { bit_of result ≡ xor_known (bit_of x) (bit_of y) }
{
    Some(x? != y?)
}

// Equals.
pub fn equal_bit(x: Option<bool>, y: Option<bool>) -> Option<bool>
    ensures { bit_of result ≡ equal_known (bit_of x) (bit_of y) }
{
    Some(x? == y?)
}

// Ite: the chosen branch, or what both share.
pub fn ite_bit(c: Option<bool>, x: Option<bool>, y: Option<bool>) -> Option<bool>
    ensures { bit_of result ≡ ite_known (bit_of c) (bit_of x) (bit_of y) }
{
    match c {
        Some(true) => x,
        Some(false) => y,
        None if x == y => x,
        None => None,
    }
}
