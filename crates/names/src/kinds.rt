// Kinds of terms, and the numbers in them.
ghost use Rattle.std.specs.Prelude.{◌≡◌};
ghost use Rattle.terms.specs.Numbered.{shape};
ghost use Rattle.text.specs.Reading.{below, value_end, index, bv_value};
ghost use Rattle.names.specs.Kinds.{told_index, family_of};

use crate::marks::first_word;
use terms::kind::Kind;
use words::numbers::numeral;

// The largest number of a record's two bytes.
const MAX_NUMBER: u64 = u16::MAX as u64;

// What a term is made by: `true`, `false`, or a kind of a record with the numbers in it, 0 where
// the kind has fewer.
#[derive(Clone, Copy)]
pub enum Operator {
    True,
    False,
    Of(Kind, u64, u64),
}

// A number that was read, and what stands after it.
#[derive(Clone, Copy)]
pub struct Index<'a> {
    pub number: u64,
    pub rest: &'a [u8],
}

// An index, width or amount.
pub fn read_index(line: &[u8]) -> Option<Index<'_>>
    ensures { told_index result ≡ index line.now }
{
    let (word, rest) = first_word(line)?;
    let number = numeral(word, MAX_NUMBER)?;
    Some(Index { number, rest })
}

// The value of the word bvN.
pub fn bv_value(word: &[u8]) -> Option<u64>
    ensures { result ≡ below value_end (bv_value word.now) }
{
    numeral(word.strip_prefix(b"bv")?, u64::MAX)
}

// The numbers in a kind: none, one, two, or a width and a value.
#[derive(Clone, Copy, Debug, PartialEq, Eq)]
pub enum Indices {
    Plain,
    Indexed,
    TwiceIndexed,
    Valued,
}

// The numbers that are in a kind.
pub fn family(kind: Kind) -> Indices
    ensures { result ≡ family_of (shape kind) }
{
    match kind {
        Kind::BoolVar | Kind::BvBitOf | Kind::SignExtend | Kind::ZeroExtend => Indices::Indexed,
        Kind::RotateLeft | Kind::RotateRight | Kind::Repeat => Indices::Indexed,
        Kind::BvVar | Kind::BvExtract => Indices::TwiceIndexed,
        Kind::Const => Indices::Valued,
        _ => Indices::Plain,
    }
}
