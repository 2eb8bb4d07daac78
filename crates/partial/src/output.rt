// The bits of the asked term, written as bytes.
ghost use Rattle.partial.specs.Output.{MayWrite, HasWritten};

use ternary::bits::KnownBits;
use ternary::codes::bit_byte;

// Writes the bits of the asked term, bit 0 first.
pub fn write_bits(known: &KnownBits, asked: u32, bits: u32, outputs: &mut [u8])
    requires { MayWrite known.now asked bits outputs.old }
    ensures { HasWritten known.now asked bits outputs.old outputs.new }
{
    for i in 0..bits {
        outputs[i as usize] = bit_byte(known.bit_on(asked, i));
    }
}
