// The lengths of numbers, as types: what is generic over them is compiled for each of the two.
ghost use Rattle.std.specs.Prelude.{◌≡◌, ℕ};
ghost use Rattle.theory.specs.Limit.{number_bytes, long_bytes};
ghost use Rattle.terms.specs.Bodies.{Length};
ghost use Rattle.rows.specs.Layout.{link_bytes};
ghost use Rattle.rows.proofs.RowLaws.{short_sized, long_sized, link_short, link_long};

use rows::layout::LONG_LINK_BYTES;
use terms::Term;

// How long the numbers of terms are in a job, and the links in the rows over it.
pub trait Lengths {
    ghost BYTES: { ℕ };

    const BYTES: usize;

    ghost LINK_BYTES: { ℕ };

    const LINK_BYTES: usize;

    ghost sized: { Length BYTES };

    ghost linked: { LINK_BYTES ≡ link_bytes BYTES };
}

// Numbers of two bytes, and links as long.
pub struct Short;

impl Lengths for Short {
    ghost BYTES = { number_bytes };

    const BYTES: usize = Term::NUMBER_BYTES;

    ghost LINK_BYTES = { number_bytes };

    const LINK_BYTES: usize = Term::NUMBER_BYTES;

    ghost sized = { short_sized };

    ghost linked = { link_short };
}

// Numbers of four bytes.
pub struct Long;

impl Lengths for Long {
    ghost BYTES = { long_bytes };

    const BYTES: usize = Term::LONG_BYTES;

    ghost LINK_BYTES = { 3 };

    const LINK_BYTES: usize = LONG_LINK_BYTES;

    ghost sized = { long_sized };

    ghost linked = { link_long };
}
