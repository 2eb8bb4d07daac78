// What each kind of term asks of its arguments, and the sort and depth that come of it.
ghost use Rattle.std.specs.Prelude.{◌≡◌, ◌≤◌};
ghost use Rattle.theory.specs.Sort.{first};
ghost use Rattle.theory.specs.Places.{tree_of};
ghost use Rattle.terms.specs.Decoded.{op_of, arguments_of};
ghost use Rattle.store.specs.Kept.{kept_terms};
ghost use Rattle.store.specs.Sorts.{sort_or_bad};
ghost use Rattle.intern.specs.Kinds.{asks_of, asked_sort, asked_depth, deepest_bool, of_bools};
ghost use Rattle.intern.specs.Kinds.{Fitting, SameAsked, SortDepthOf};
ghost use Rattle.intern.specs.Given.{places, given_terms, argument_sorts, deepest_argument};

use super::arguments::Arguments;
use super::guards::{of_bit, of_copies, of_extend, of_extract, of_value, of_width};
use store::gates::Kept;
use store::sorts::Sort;
use terms::Term;

// What a kind asks of its arguments, and the sort that it gives.
#[derive(Clone, Copy)]
pub enum Asks {
    // no arguments; a Bool
    Nothing,
    // a width; a bit-vector of it
    Width(u32),
    // a width and a value that it has; a bit-vector of it
    Value(u32, u64),
    // Bools; a Bool
    Bools,
    // arguments of one sort; a Bool
    Same,
    // a bit-vector that has bit i; a Bool
    Bit(u32),
    // Bools; a bit-vector of as many bits
    Bits,
    // bit-vectors of one width; another of it
    Alike,
    // bit-vectors of one width; a Bool
    Order,
    // bit-vectors of one width; a bit-vector of one bit
    Compare,
    // bit-vectors; one of the sum of their widths
    Concat,
    // a bit-vector that has bits j to i; one of these
    Extract(u32, u32),
    // a bit-vector; one of k bits more
    Extend(u32),
    // a bit-vector; one of k times its bits
    Copies(u32),
}

// The sort and the depth of a term that has a sort.
#[derive(Clone, Copy)]
pub struct SortAndDepth {
    pub sort: Sort,
    pub depth: usize,
}

// What a term asks.
pub fn asked_by(term: Term) -> Asks
    ensures { result ≡ asks_of term }
{
    match term {
        Term::True | Term::False | Term::BoolVar(_) => Asks::Nothing,
        Term::BvVar(n, _) => Asks::Width(n),
        Term::Const(n, x) => Asks::Value(n, x),
        Term::Not(_) | Term::And(_) | Term::Or(_) | Term::Xor(_, _) => Asks::Bools,
        Term::Equals(_, _) => Asks::Same,
        Term::Ite(_, _, _) => Asks::Bools,
        Term::BvBitOf(i, _) => Asks::Bit(i),
        Term::BvBbTerm(_) => Asks::Bits,
        Term::BvNot(_) | Term::BvNeg(_) => Asks::Alike,
        Term::BvAnd(_) | Term::BvOr(_) | Term::BvXor(_) => Asks::Alike,
        Term::BvAdd(_) | Term::BvMul(_) | Term::BvXNor(_, _) => Asks::Alike,
        Term::BvComp(_, _) => Asks::Compare,
        Term::BvULt(_, _) | Term::BvSLt(_, _) => Asks::Order,
        Term::BvShl(_, _) | Term::BvLShr(_, _) | Term::BvAShr(_, _) => Asks::Alike,
        Term::BvUDiv(_, _) | Term::BvURem(_, _) => Asks::Alike,
        Term::BvConcat(_) => Asks::Concat,
        Term::BvExtract(i, j, _) => Asks::Extract(i, j),
        Term::SignExtend(k, _) | Term::ZeroExtend(k, _) => Asks::Extend(k),
        Term::RotateLeft(_, _) | Term::RotateRight(_, _) => Asks::Alike,
        Term::Repeat(k, _) => Asks::Copies(k),
    }
}

// The sort of a term that asks this of these arguments.
pub fn asked_sort(args: &Arguments, asks: Asks) -> Option<Sort>
    ensures { sort_or_bad result ≡ asked_sort asks (argument_sorts args.now) }
{
    match asks {
        Asks::Nothing => Some(Sort::Bool),
        Asks::Width(w) => of_width(w),
        Asks::Value(w, x) => of_value(w, x),
        Asks::Bools => args.all_are(Some(Sort::Bool)).then_some(Sort::Bool),
        Asks::Same => args.one_sort().then_some(Sort::Bool),
        Asks::Bit(i) => of_bit(args.first_sort()?, i),
        Asks::Bits => args
            .all_are(Some(Sort::Bool))
            .then_some(Sort::Bv(args.count() as u32)),
        Asks::Alike => {
            let s = args.first_sort()?;
            args.all_alike().then_some(s)
        }
        Asks::Order => args.all_alike().then_some(Sort::Bool),
        Asks::Compare => args.all_alike().then_some(Sort::Bv(1)),
        Asks::Concat => args.joined(),
        Asks::Extract(i, j) => of_extract(args.first_sort()?, i, j),
        Asks::Extend(k) => of_extend(args.first_sort()?, k),
        Asks::Copies(k) => of_copies(args.first_sort()?, k),
    }
}

// The depth of a term that asks this of these arguments: gates are one deeper than the deepest, a
// BvBbTerm as deep, any other has 0.
pub fn asked_depth(args: &Arguments, asks: Asks) -> usize
    ensures { result
        ≡ asked_depth asks (first (argument_sorts args.now)) (deepest_argument args.now) }
{
    match asks {
        Asks::Bools => args.deepest() + 1,
        Asks::Bits => args.deepest(),
        Asks::Same => {
            let Some(s) = args.first_sort() else {
                return 0;
            };
            if s == Sort::Bool {
                args.deepest() + 1
            } else {
                0
            }
        }
        _ => 0,
    }
}

// The sort of a term that asks for Bools, and its depth, so much more than its deepest argument's.
// Copied into its callers, which take its result apart at once.
#[inline(always)]
fn of_bools(args: &Arguments, sort: Sort, more: usize) -> Option<SortAndDepth>
    requires { more ≤ 1 }
    ensures { result ≡ of_bools (deepest_bool (given_terms args.now) (places args.now)) sort more }
{
    let deepest = args.deepest_bool()?;
    Some(SortAndDepth {
        sort,
        depth: deepest as usize + more,
    })
}

// What comes to the same for these arguments: an equality whose first side is a Bool asks for
// Bools.
fn asked_of(args: &Arguments, asks: Asks) -> Asks
    ensures { SameAsked asks result (argument_sorts args.now) }
{
    let Asks::Same = asks else {
        return asks;
    };
    let Some(s) = args.first_sort() else {
        return asks;
    };
    let Sort::Bool = s else {
        return asks;
    };
    Asks::Bools
}

// The sort and the depth of a term, if it has a sort. Where it asks for Bools, each argument is
// looked at once for both.
pub fn sort_and_depth(kept: &Kept, term: Term) -> Option<SortAndDepth>
    requires { Fitting kept.now term }
    ensures { SortDepthOf (tree_of (kept_terms kept.now)
        (op_of term) (arguments_of kept.now.lookup.job.now term)) result }
{
    let args = Arguments {
        kept: *kept,
        list: term.operands(),
    };
    let asks = asked_of(&args, asked_by(term));
    match asks {
        Asks::Bools => of_bools(&args, Sort::Bool, 1),
        Asks::Bits => of_bools(&args, Sort::Bv(args.count() as u32), 0),
        _ => Some(SortAndDepth {
            sort: asked_sort(&args, asks)?,
            depth: asked_depth(&args, asks),
        }),
    }
}
