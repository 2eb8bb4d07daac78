// Which words are names.
ghost use Rattle.std.specs.Prelude.{◌≡◌};
ghost use Rattle.std.specs.Char.{is_ascii_digit};
ghost use Rattle.std.specs.List.{list_all};
ghost use Rattle.theory.specs.Optional.{is_some};
ghost use Rattle.text.specs.Tokens.{in_symbol};
ghost use Rattle.text.specs.Reading.{numeral, is_symbol, reserved};

use words::tables::kind_named;
use words::tokens::in_symbol;

// Is each byte a digit?
fn all_digits(word: &[u8]) -> bool
    ensures { result ≡ list_all is_ascii_digit word.now }
{
    word.iter().all(|b| b.is_ascii_digit())
}

// Is each byte one of symbols?
fn all_symbol(word: &[u8]) -> bool
    ensures { result ≡ list_all in_symbol word.now }
{
    word.iter().all(|&b| in_symbol(b))
}

// Is a word a numeral, of any size?
fn is_numeral(word: &[u8]) -> bool
    ensures { result ≡ is_some (numeral word.now) }
{
    if word.is_empty() {
        return false;
    }
    if 1 < word.len() && word[0] == b'0' {
        return false;
    }
    all_digits(word)
}

// Is a word a simple symbol?
pub fn is_symbol(word: &[u8]) -> bool
    ensures { result ≡ is_symbol word.now }
{
    if word.is_empty() {
        return false;
    }
    if word[0].is_ascii_digit() {
        return false;
    }
    all_symbol(word)
}

// Is a word a name that terms are spelled with?
pub fn reserved(word: &[u8]) -> bool
    ensures { result ≡ reserved word.now }
{
    if kind_named(word).is_some() {
        return true;
    }
    if word == b"true".as_slice() {
        return true;
    }
    if word == b"false".as_slice() {
        return true;
    }
    if word == b"_".as_slice() {
        return true;
    }
    match word.strip_prefix(b"bv") {
        Some(rest) => is_numeral(rest),
        None => false,
    }
}
