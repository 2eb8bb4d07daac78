// Sorts.
ghost use Rattle.std.specs.Prelude.{◌≡◌};
ghost use Rattle.theory.specs.Sort.{sort_width};
ghost use Rattle.store.specs.Sorts.{sort_read};

// The sort of a term: Bool, or a bit-vector of a width. Where a term may have none it is an Option.
#[derive(Clone, Copy, Debug, PartialEq, Eq)]
pub enum Sort {
    Bool,
    Bv(u32),
}

// The width of a sort, 0 for a Bool.
pub fn width_of(s: Sort) -> u32
    ensures { result ≡ sort_width (sort_read s) }
{
    match s {
        Sort::Bool => 0,
        Sort::Bv(n) => n,
    }
}
