// Where the bits of each variable stand among the inputs.
ghost use Rattle.std.specs.Prelude.{◌*◌, ◌≤◌, length};
ghost use Rattle.store.specs.KeptTerms.{kept_terms};
ghost use Rattle.sweeps.specs.Calls.{cell_bytes};
ghost use Rattle.partial.specs.Inputs.{InputsPlaced};

use digits::variable_bits;
use evaluation::cells::put_cell;
use marks::Asked;

// Stores in the cell of each variable that stands in the asked term where its bits begin, the
// lowest number first.
pub fn place_inputs(asked: &Asked, values: &mut [u8])
    requires { cell_bytes * length (kept_terms asked.now.terms) ≤ length values.old }
    ensures { InputsPlaced (kept_terms asked.now.terms) asked.now.place values.old values.new }
{
    let mut at: u64 = 0;
    for k in asked.places() {
        if let Some(b) = variable_bits(&asked.terms, k) {
            put_cell(values, k, at);
            at += u64::from(b);
        }
    }
}
