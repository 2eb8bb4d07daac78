// One pass over the marked Bools, upwards.
ghost use Rattle.partial.specs.Passing.{ReadyIn, PassedIn};

use evaluation::cells::put_cell;
use marks::Asked;
use store::sorts::Sort;
use ternary::bits::KnownBits;
use ternary::codes::bit_byte;

// Stores the bits of the marked Bools up to the asked term in their cells; the variables' cells say
// where their bits stand.
pub fn known_all(asked: &Asked, values: &mut [u8], inputs: &[u8])
    requires { ReadyIn asked.now values.old }
    ensures { PassedIn asked.now inputs.now values.old values.new }
{
    for k in asked.places() {
        if asked.terms.sort_on(k) == Sort::Bool {
            let known = KnownBits {
                terms: asked.terms,
                values,
                inputs,
            };
            let v = u64::from(bit_byte(known.known_of(k)));
            put_cell(values, k, v);
        }
    }
}
