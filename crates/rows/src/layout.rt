// Where things stand in a row; specs/Layout.antt has the same. Sizes of numbers and limits of terms
// are Term's.

// What stands for no place.
pub const MISSING: u32 = u32::MAX;

// The place of row 0: `true` and `false` come before it.
pub const FIRST_PLACE: usize = 2;

// A row starts with the offset of its record in the job, of so many bytes; its measure and its link
// stand after it.
pub const OFFSET_BYTES: usize = 3;

// The bytes of a link where terms' numbers have Term::LONG_BYTES.
pub const LONG_LINK_BYTES: usize = 3;

// A kept term costs so many bytes of work memory, and two numbers more: a row, and its share of the
// heads.
pub const FIXED_BYTES: usize = 4;
