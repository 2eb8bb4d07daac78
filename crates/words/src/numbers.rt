// Numbers in words.
ghost use Rattle.std.specs.Prelude.{◌≡◌, ◌+◌, ◌≤◌, ◌<◌};
ghost use Rattle.text.specs.Reading.{below, number_in, numeral};

// The number of a word of digits of a base, up to `most`.
pub fn number_in(base: u64, word: &[u8], most: u64) -> Option<u64>
    requires low { 2 ≤ base }
    requires high { base ≤ 16 }
    ensures { result ≡ below (most + 1) (number_in base word.now) }
{
    if word.is_empty() {
        return None;
    }
    let mut n: u64 = 0;
    for &b in word {
        let d = char::from(b).to_digit(base as u32)?;
        n = n.checked_mul(base)?.checked_add(u64::from(d))?;
        if most < n {
            return None;
        }
    }
    Some(n)
}

// SMT-LIB's numeral, up to `most`: no zero stands before another digit.
pub fn numeral(word: &[u8], most: u64) -> Option<u64>
    ensures { result ≡ below (most + 1) (numeral word.now) }
{
    if 1 < word.len() && word[0] == b'0' {
        return None;
    }
    number_in(10, word, most)
}
