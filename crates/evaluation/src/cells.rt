// The cells of the value buffer: eight bytes for each kept term, the lowest byte first.
ghost use Rattle.std.specs.Prelude.{◌≡◌, ◌+◌, ◌*◌, ◌≤◌, length};
ghost use Rattle.sweeps.specs.Calls.{cell_bytes};
ghost use Rattle.evaluation.specs.Cells.{cell_at, stored_cell, lane_at, Lane};

use operations::words::low;
use terms::Term;

// The bytes of a cell.
pub const CELL_BYTES: usize = 8;

// Cell k. Of a cell that the buffer has not whole, what is missing counts 0.
pub fn cell(values: &[u8], k: u32) -> u64
    ensures { result ≡ cell_at values.now k }
{
    Term::value(values, k as usize * CELL_BYTES)
}

// Lane j of cell k, where a lane has w bits.
pub fn lane(values: &[u8], w: u32, j: u32, k: u32) -> u64
    requires { Lane w j }
    ensures { result ≡ lane_at values.now w j k }
{
    low(w, cell(values, k) >> (w * j))
}

// Stores x in cell k.
pub fn put_cell(values: &mut [u8], k: u32, x: u64)
    requires { k * cell_bytes + cell_bytes ≤ length values.old }
    ensures { values.new ≡ stored_cell values.old k x }
{
    let at = k as usize * CELL_BYTES;
    values[at..at + CELL_BYTES].copy_from_slice(&x.to_le_bytes());
}
