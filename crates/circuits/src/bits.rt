// The bits of a term, and one gate at each bit: the rules not, and, or, xor and xnor for two
// arguments.
ghost use Rattle.std.specs.Prelude.{◌≡◌, map, ◌++◌, ◌+◌, ◌≤◌, length, replicate, ℕ};
ghost use Rattle.theory.specs.Limit.{max_width};
ghost use Rattle.theory.specs.Move.{bits};
ghost use Rattle.theory.specs.Circuit.{zip_with, choose};
ghost use Rattle.store.specs.declared.gates.Lookup.{Lookup};
ghost use Rattle.store.specs.Lookup.{gates, bit_gate};

use arrayvec::ArrayVec;
use store::gates::Lookup;
use terms::Term;

// The most bits that a bit-vector has.
pub const MAX_BITS: usize = Term::MAX_WIDTH as usize;

// The numbers of the bits of a bit-vector, bit 0 first.
pub type Bits = ArrayVec<u32, MAX_BITS>;

// The bits of a bit-vector of width w that has one bit at every place.
pub fn same_bits(bit: u32, w: usize) -> Bits
    requires { w ≤ max_width }
    ensures { result.items ≡ replicate w bit }
{
    let mut out = Bits::from([bit; MAX_BITS]);
    out.truncate(w);
    out
}

// Adds these bits above those of a bit-vector.
pub fn append(out: &mut Bits, bits: &[u32])
    requires room { length out.old.items + length bits.now ≤ max_width }
    ensures { out.new.items ≡ out.old.items ++ bits.now }
{
    out.try_extend_from_slice(bits).unwrap();
}

// get_term_bits: the bits 0 to w - 1 of term t, for a term that is no BvBbTerm.
pub fn select_bits(lookup: &Lookup, t: u32, w: usize) -> Bits
    requires { w ≤ max_width }
    ensures { result.items ≡ bits w (λ i. bit_gate lookup.now i t) }
{
    let mut out = Bits::new();
    for i in 0..w {
        out.push(lookup.bit_of(i as u32, t));
    }
    out
}

// not: each bit inverted.
pub fn nots(lookup: &Lookup, x: &Bits) -> Bits
    ensures { result.items ≡ map (gates lookup.now).not_gate x.now.items }
{
    let mut out = Bits::new();
    for &bit in x.as_slice() {
        out.push(lookup.not1(bit));
    }
    out
}

// A gate of two bits.
trait Gate {
    ghost gate: { Lookup → ℕ → ℕ → ℕ };

    fn make(lookup: &Lookup, x: u32, y: u32) -> u32
        ensures { result ≡ gate lookup.now x y };
}

struct And;

impl Gate for And {
    ghost gate = { λ l. (gates l).and_gate };

    fn make(lookup: &Lookup, x: u32, y: u32) -> u32 {
        lookup.and2(x, y)
    }
}

struct Or;

impl Gate for Or {
    ghost gate = { λ l. (gates l).or_gate };

    fn make(lookup: &Lookup, x: u32, y: u32) -> u32 {
        lookup.or2(x, y)
    }
}

struct Xor;

impl Gate for Xor {
    ghost gate = { λ l. (gates l).xor_gate };

    fn make(lookup: &Lookup, x: u32, y: u32) -> u32 {
        lookup.xor2(x, y)
    }
}

struct Same;

impl Gate for Same {
    ghost gate = { λ l. (gates l).eq_gate };

    fn make(lookup: &Lookup, x: u32, y: u32) -> u32 {
        lookup.eq2(x, y)
    }
}

// A gate of two, bit by bit.
fn zips<G: Gate>(lookup: &Lookup, x: &Bits, y: &Bits) -> Bits
    ensures { result.items ≡ zip_with (G.gate lookup.now) x.now.items y.now.items }
{
    let mut out = Bits::new();
    for (&a, &b) in x.iter().zip(y.as_slice()) {
        out.push(G::make(lookup, a, b));
    }
    out
}

// and, of two: bit by bit.
pub fn ands(lookup: &Lookup, x: &Bits, y: &Bits) -> Bits
    ensures { result.items ≡ zip_with (gates lookup.now).and_gate x.now.items y.now.items }
{
    zips::<And>(lookup, x, y)
}

// or, of two: bit by bit.
pub fn ors(lookup: &Lookup, x: &Bits, y: &Bits) -> Bits
    ensures { result.items ≡ zip_with (gates lookup.now).or_gate x.now.items y.now.items }
{
    zips::<Or>(lookup, x, y)
}

// xor, of two: bit by bit.
pub fn xors(lookup: &Lookup, x: &Bits, y: &Bits) -> Bits
    ensures { result.items ≡ zip_with (gates lookup.now).xor_gate x.now.items y.now.items }
{
    zips::<Xor>(lookup, x, y)
}

// xnor, and the equations of `equality`: whether the bits are equal, bit by bit.
pub fn eqs(lookup: &Lookup, x: &Bits, y: &Bits) -> Bits
    ensures { result.items ≡ zip_with (gates lookup.now).eq_gate x.now.items y.now.items }
{
    zips::<Same>(lookup, x, y)
}

// Bit by bit: x where c is true, else y. The shifts and the divider end in this.
pub fn ites(lookup: &Lookup, c: u32, x: &Bits, y: &Bits) -> Bits
    ensures { result.items ≡ choose (gates lookup.now) c x.now.items y.now.items }
{
    let mut out = Bits::new();
    for (&a, &b) in x.iter().zip(y.as_slice()) {
        out.push(lookup.ite3(c, a, b));
    }
    out
}
