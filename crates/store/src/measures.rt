// The measure of a term, the one number that its row keeps: its depth or its width, by its kind.
ghost use Rattle.std.specs.Prelude.{◌≡◌, ◌<◌, ◌≤◌};
ghost use Rattle.theory.specs.Limit.{number_bytes};
ghost use Rattle.rows.specs.Layout.{place_end};
ghost use Rattle.terms.specs.Numbered.{number_of};
ghost use Rattle.store.specs.Measure.{KindNumbered, is_gate, has_depth};
ghost use Rattle.store.specs.Measure.{measure_in, depth_in, width_in, bool_in};

use terms::Term;
use terms::kind::Kind;

// The kind that has a number. Copied into its callers, where a match on the kind is then one on its
// number.
#[inline]
fn kind_numbered(number: usize) -> Option<Kind>
    ensures { KindNumbered number result }
{
    let number = u32::try_from(number).ok()?;
    Kind::try_from(number).ok()
}

// A kind from Not to Ite.
fn is_gate(kind: Kind) -> bool
    ensures { result ≡ is_gate (number_of kind) }
{
    matches!(
        kind,
        Kind::Not | Kind::And | Kind::Or | Kind::Xor | Kind::Equals | Kind::Ite
    )
}

// A kind that has a depth.
#[tactic(auto, using(crate::proofs::Measuring::none_depth))]
fn has_depth(kind: usize) -> bool
    ensures { result ≡ has_depth kind }
{
    match kind_numbered(kind) {
        Some(kind) => is_gate(kind) || kind == Kind::BvBbTerm,
        None => false,
    }
}

// What a row keeps of a term's depth and width, by its kind.
#[tactic(auto, using(std::proofs::lemmas::Bool::Decides::nat_tests), unfolding(crate::specs::Measure::measure_in))]
pub fn measure_in(kind: usize, depth: usize, width: usize) -> usize
    ensures { result ≡ measure_in kind depth width }
{
    if has_depth(kind) { depth } else { width }
}

// The depth that a row says, by its record's kind and its measure.
#[tactic(auto, using(std::proofs::lemmas::Bool::Decides::nat_tests), unfolding(crate::specs::Measure::depth_in))]
pub fn depth_in(kind: usize, measure: usize) -> usize
    ensures { result ≡ depth_in kind measure }
{
    if has_depth(kind) { measure } else { 0 }
}

// The width that a row says, by its record's length too, where numbers of terms have so many bytes.
#[tactic(auto, using(std::proofs::lemmas::Bool::Decides::nat_tests, crate::proofs::Measuring::none_width), unfolding(crate::specs::Measure::width_in))]
pub fn width_in(bytes: usize, kind: usize, size: usize, measure: usize) -> usize
    requires some { 0 < bytes }
    requires sized { number_bytes ≤ size }
    ensures { result ≡ width_in bytes kind size measure }
{
    match kind_numbered(kind) {
        Some(kind) if is_gate(kind) => 0,
        Some(Kind::BvBbTerm) => (size - Term::NUMBER_BYTES) / bytes,
        _ => measure,
    }
}

// The depth that a row says where its term is a Bool.
#[tactic(auto, using(std::proofs::lemmas::Bool::Decides::nat_tests, crate::proofs::Measuring::none_bool), unfolding(crate::specs::Measure::bool_in))]
pub fn bool_in(kind: usize, measure: usize) -> Option<u32>
    requires { measure < place_end }
    ensures { result ≡ bool_in kind measure }
{
    // A term of another kind has depth 0, and is a Bool where its width is 0.
    let other = (measure == 0).then_some(0);
    match kind_numbered(kind) {
        Some(kind) if is_gate(kind) => Some(measure as u32),
        Some(Kind::BvBbTerm) => None,
        _ => other,
    }
}
