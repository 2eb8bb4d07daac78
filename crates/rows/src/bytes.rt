// Numbers that stand in bytes, the lowest byte first.
ghost use Rattle.std.specs.Prelude.{◌≡◌, ◌+◌, ◌^◌, ◌≤◌, length};
ghost use Rattle.std.proofs.lemmas.List.Edits.{sets};
ghost use Rattle.theory.specs.Record.{bytes_of};
ghost use Rattle.rows.specs.Layout.{Bounded, number_at};

// The number of N bytes at a place.
pub fn number_of<const N: usize>(s: &[u8], at: usize) -> usize
    requires inside { at + N ≤ length s.now }
    requires short { N ≤ 4 }
    ensures { Bounded result (number_at s.now at N) (256 ^ N) }
{
    let mut bytes = [0; 8];
    bytes[..N].copy_from_slice(&s[at..at + N]);
    usize::from_le_bytes(bytes)
}

// The number at a place, of up to four bytes.
pub fn number(s: &[u8], at: usize, len: usize) -> usize
    requires inside { at + len ≤ length s.now }
    requires short { len ≤ 4 }
    ensures { Bounded result (number_at s.now at len) (256 ^ len) }
{
    match len {
        2 => number_of::<2>(s, at),
        3 => number_of::<3>(s, at),
        4 => number_of::<4>(s, at),
        1 => number_of::<1>(s, at),
        _ => number_of::<0>(s, at),
    }
}

// Stores `len` bytes of a number.
#[inline]
fn put_bytes(s: &mut [u8], at: usize, len: usize, x: usize)
    requires { at + len ≤ length s.old }
    ensures { s.new ≡ sets s.old at (bytes_of len x) }
{
    let mut rest = x;
    for byte in &mut s[at..at + len] {
        *byte = (rest % 256) as u8;
        rest /= 256;
    }
}

// Stores N bytes of a number.
pub fn put_number_of<const N: usize>(s: &mut [u8], at: usize, x: usize)
    requires { at + N ≤ length s.old }
    ensures { s.new ≡ sets s.old at (bytes_of N x) }
{
    put_bytes(s, at, N, x);
}

// Stores `len` bytes of a number. A call for each length that is common: each is then compiled for
// its length.
pub fn put_number(s: &mut [u8], at: usize, len: usize, x: usize)
    requires { at + len ≤ length s.old }
    ensures { s.new ≡ sets s.old at (bytes_of len x) }
{
    match len {
        2 => put_number_of::<2>(s, at, x),
        3 => put_number_of::<3>(s, at, x),
        _ => put_bytes(s, at, len, x),
    }
}
