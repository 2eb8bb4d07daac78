ghost use Rattle.std.specs.Prelude.{◌≡◌};
ghost use Rattle.theory.specs.Circuit.{clog2};

// How many stages a shift circuit has: the width's logarithm, rounded up, which is 63 minus the
// width's leading zeros, plus one unless its ones count is one. Width 0 has no logarithm, and no
// stages.
pub fn shift_stages(width: u64) -> u32
    ensures { result ≡ clog2 width }
{
    if width == 0 {
        return 0;
    }
    let floor = 63 - u64::leading_zeros(width);
    if u64::count_ones(width) == 1 {
        floor
    } else {
        floor + 1
    }
}
