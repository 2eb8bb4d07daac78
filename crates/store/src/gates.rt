// The kept records of a job, looked up and read. A gate is looked up: it is the number of the kept
// term that is this gate of these arguments, or MISSING. The term at a place is read: with its sort
// and its depth.
ghost use Rattle.std.specs.Prelude.{◌≡◌, ◌+◌, ◌<◌, ◌≤◌, length};
ghost use Rattle.theory.specs.Limit.{first_terms, max_arguments};
ghost use Rattle.theory.specs.Sort.{sort_of};
ghost use Rattle.theory.specs.Depth.{depth};
ghost use Rattle.rows.specs.Layout.{Bounded, place_end};
ghost use Rattle.table.specs.Buckets.{Table};
ghost use Rattle.theory.proofs.Facts.{kept_facts};
ghost use Rattle.store.specs.Shelf.{Shelf};

use super::shelf::Terms;
use super::sorts::Sort;
use terms::Term;
use terms::kind::Kind;

// The numbers of the terms `true` and `false`.
pub const TRUE: u32 = 0;

pub const FALSE: u32 = 1;

// A job's bytes, the memory it lends, and how many rows are kept in it, where these can be looked
// up. A gate is the number of the kept term that is this gate of these arguments, and MISSING where
// no such term is kept.
#[derive(Clone, Copy)]
pub struct Lookup<'a> {
    pub job: &'a [u8],
    pub(crate) work: &'a [u8],
    pub(crate) rows: usize,
    ghost table: { Table job.now work.now rows },
}

impl<'a> Lookup<'a> {
    ghost use Rattle.store.specs.Lookup.{Finds, gates, bit_gate, bb_gate, constant_gate};

    pub fn new(job: &'a [u8], work: &'a [u8], rows: usize) -> Lookup<'a>
        requires { Table job.now work.now rows }
        ensures { Finds result job.now work.now rows }
    {
        Lookup { job, work, rows }
    }

    pub fn not1(&self, x: u32) -> u32
        ensures { result ≡ (gates self.now).not_gate x }
    {
        table::find_one(self.job, self.work, self.rows, Kind::Not as u32, x)
    }

    pub fn and2(&self, x: u32, y: u32) -> u32
        ensures { result ≡ (gates self.now).and_gate x y }
    {
        table::find_two(self.job, self.work, self.rows, Kind::And as u32, x, y)
    }

    pub fn or2(&self, x: u32, y: u32) -> u32
        ensures { result ≡ (gates self.now).or_gate x y }
    {
        table::find_two(self.job, self.work, self.rows, Kind::Or as u32, x, y)
    }

    pub fn xor2(&self, x: u32, y: u32) -> u32
        ensures { result ≡ (gates self.now).xor_gate x y }
    {
        table::find_two(self.job, self.work, self.rows, Kind::Xor as u32, x, y)
    }

    pub fn eq2(&self, x: u32, y: u32) -> u32
        ensures { result ≡ (gates self.now).eq_gate x y }
    {
        table::find_two(self.job, self.work, self.rows, Kind::Equals as u32, x, y)
    }

    pub fn ite3(&self, c: u32, x: u32, y: u32) -> u32
        ensures { result ≡ (gates self.now).ite_gate c x y }
    {
        table::find_three(self.job, self.work, self.rows, Kind::Ite as u32, c, x, y)
    }

    // An And of any number of arguments.
    pub fn all_of(&self, xs: &[u32]) -> u32
        requires { length xs.now ≤ max_arguments }
        ensures { result ≡ (gates self.now).all_gate xs.now }
    {
        table::find_list(self.job, self.work, self.rows, Kind::And as u32, xs)
    }

    // Bit i of term x.
    pub fn bit_of(&self, i: u32, x: u32) -> u32
        ensures { result ≡ bit_gate self.now i x }
    {
        table::find_indexed(self.job, self.work, self.rows, Kind::BvBitOf as u32, i, x)
    }

    // The BvBbTerm of these bits.
    pub fn bb_term(&self, xs: &[u32]) -> u32
        requires { length xs.now ≤ max_arguments }
        ensures { result ≡ bb_gate self.now xs.now }
    {
        table::find_list(self.job, self.work, self.rows, Kind::BvBbTerm as u32, xs)
    }

    // The constant of this width and value.
    pub fn constant(&self, width: u32, value: u64) -> u32
        ensures { result ≡ constant_gate self.now width value }
    {
        let kind = Kind::Const as u32;
        table::find_constant(self.job, self.work, self.rows, kind, width, value)
    }
}

// The kept terms of a job, which can be read and looked up.
#[derive(Clone, Copy)]
pub struct Kept<'a> {
    pub lookup: Lookup<'a>,
    ghost shelf: { Shelf lookup.job.now lookup.work.now lookup.rows } by { Prim.hlevel kept_facts },
}

impl<'a> Kept<'a> {
    ghost use Rattle.store.specs.Store.{Store};
    ghost use Rattle.store.specs.Sorts.{sort_read};
    ghost use Rattle.store.specs.KeptTerms.{Holds};
    ghost use Rattle.store.specs.Lookup.{Finds};
    ghost use Rattle.store.specs.Kept.{Reads, IsTermAt, kept_term};

    pub fn new(job: &'a [u8], work: &'a [u8], rows: usize) -> Kept<'a>
        requires { Store job.now work.now rows }
        ensures { Finds result.lookup job.now work.now rows }
    {
        Kept {
            lookup: Lookup::new(job, work, rows),
        }
    }

    // The same terms, read alone.
    pub fn terms(&self) -> Terms<'a>
        ensures { Reads self.now result }
    {
        Terms::new(self.lookup.job, self.lookup.work, self.lookup.rows)
    }

    // The term at a place: `true`, `false`, or what the record of a row says.
    pub fn term_at(&self, place: u32) -> Term
        requires { place < first_terms + self.now.lookup.rows }
        ensures { IsTermAt self.now place result }
    {
        self.terms().term_on(place)
    }

    // The sort of the term at a place.
    pub fn sort_at(&self, place: u32) -> Sort
        requires { place < first_terms + self.now.lookup.rows }
        ensures { sort_read result ≡ sort_of (kept_term self.now place) }
    {
        self.terms().sort_on(place)
    }

    // The depth of the term at a place: `true` and `false` have depth 0, and a row has its term's.
    pub fn depth_at(&self, place: u32) -> usize
        requires { place < first_terms + self.now.lookup.rows }
        ensures { Bounded result (depth (kept_term self.now place)) place_end }
    {
        let k = place as usize;
        if k < rows::FIRST_PLACE {
            return 0;
        }
        self.terms().row_depth(k - rows::FIRST_PLACE)
    }
}
