// What tests make of sorts: None where one fails.
#![tactic(auto, using(std::proofs::lemmas::Bool::Decides::nat_tests), unfolding(theory::specs::Sort::guard))]

ghost use Rattle.std.specs.Prelude.{◌≡◌, ◌&&◌, ◌+◌, ◌-◌, ◌*◌, ◌^◌, leb, ltb};
ghost use Rattle.theory.specs.Limit.{max_width};
ghost use Rattle.theory.specs.Sort.{bool, bv, guard, is_width, is_bv_sort, sort_width};
ghost use Rattle.store.specs.Sorts.{sort_read, sort_or_bad};

use store::sorts::{Sort, width_of};
use terms::Term;

// Is a term of this sort no wider than the limit?
pub fn fits_within(s: Sort, limit: u32) -> bool
    ensures { result ≡ leb (sort_width (sort_read s)) limit }
{
    width_of(s) <= limit
}

// A bit-vector of that width, if it is a width.
pub fn of_width(n: u32) -> Option<Sort>
    ensures { sort_or_bad result ≡ guard (is_width n) (bv n) }
{
    if n < 1 {
        return None;
    }
    if Term::MAX_WIDTH < n {
        return None;
    }
    Some(Sort::Bv(n))
}

// A constant of that width and value, if it is a width and has the value.
pub fn of_value(n: u32, x: u64) -> Option<Sort>
    ensures { sort_or_bad result ≡ guard (is_width n && ltb x (2 ^ n)) (bv n) }
{
    let sort = of_width(n)?;
    // Every value fits into 64 bits.
    if n == Term::MAX_WIDTH {
        return Some(sort);
    }
    (x < (1u64 << n)).then_some(sort)
}

// Bit i of a term of this sort.
pub fn of_bit(s: Sort, i: u32) -> Option<Sort>
    ensures { sort_or_bad result
        ≡ guard (is_bv_sort (sort_read s) && ltb i (sort_width (sort_read s))) bool }
{
    (i < width_of(s)).then_some(Sort::Bool)
}

// The bits j to i of a term of this sort.
pub fn of_extract(s: Sort, i: u32, j: u32) -> Option<Sort>
    ensures { sort_or_bad result
        ≡ guard (is_bv_sort (sort_read s) && (leb j i && ltb i (sort_width (sort_read s))))
        (bv (i - j + 1)) }
{
    if i < j {
        return None;
    }
    if width_of(s) <= i {
        return None;
    }
    Some(Sort::Bv(i - j + 1))
}

// A term of this sort with k more bits.
pub fn of_extend(s: Sort, k: u32) -> Option<Sort>
    ensures { sort_or_bad result
        ≡ guard (is_bv_sort (sort_read s) && leb (sort_width (sort_read s) + k) max_width)
        (bv (sort_width (sort_read s) + k)) }
{
    let Sort::Bv(n) = s else {
        return None;
    };
    if Term::MAX_WIDTH < k {
        return None;
    }
    if Term::MAX_WIDTH - k < n {
        return None;
    }
    Some(Sort::Bv(n + k))
}

// k copies of a term of this sort.
pub fn of_copies(s: Sort, k: u32) -> Option<Sort>
    ensures { sort_or_bad result
        ≡ guard (is_bv_sort (sort_read s) && is_width (k * sort_width (sort_read s)))
        (bv (k * sort_width (sort_read s))) }
{
    let Sort::Bv(n) = s else {
        return None;
    };
    if Term::MAX_WIDTH < k {
        return None;
    }
    if Term::MAX_WIDTH < n {
        return None;
    }
    of_width(k * n)
}
