// A bit as a byte of the C interface: 0, 1, or 2 for a bit that is not known.
ghost use Rattle.std.specs.Prelude.{◌≡◌};
ghost use Rattle.sweeps.specs.Known.{known_byte, of_byte};
ghost use Rattle.ternary.specs.Gates.{bit_of};

// The bit that a byte says: neither 0 nor 1 says one.
pub fn read_bit(x: u64) -> Option<bool>
    ensures { bit_of result ≡ of_byte x }
{
    match x {
        0 => Some(false),
        1 => Some(true),
        _ => None,
    }
}

// The byte that says a bit.
pub fn bit_byte(x: Option<bool>) -> u8
    ensures { result ≡ known_byte (bit_of x) }
{
    x.map_or(2, u8::from)
}
