// The kept terms of a job, read from their rows alone: also where nothing is looked up or added any
// more, and the links of the rows are free for other use.
ghost use Rattle.std.specs.Prelude.{◌≡◌, ◌+◌, ◌<◌};
ghost use Rattle.theory.specs.Limit.{first_terms};
ghost use Rattle.theory.specs.Sort.{sort_of};
ghost use Rattle.theory.specs.Depth.{depth};
ghost use Rattle.theory.specs.Record.{number_length};
ghost use Rattle.rows.specs.Layout.{Bounded, place_end};
ghost use Rattle.store.specs.Measure.{bool_depth};
ghost use Rattle.theory.proofs.Facts.{kept_facts};
ghost use Rattle.store.specs.Shelf.{Shelf};

use super::gates::{FALSE, TRUE};
use super::measures::{bool_in, depth_in, width_in};
use super::sorts::Sort;
use rows::bytes::number;
use table::{Lengths, Long, Short};
use terms::{Item, Term};

// A job's bytes, the memory it lends, and how many rows are kept in it: the terms that its records
// say can be read.
#[derive(Clone, Copy)]
pub struct Terms<'a> {
    pub job: &'a [u8],
    pub work: &'a [u8],
    pub rows: usize,
    ghost shelf: { Shelf job.now work.now rows } by { Prim.hlevel kept_facts },
}

// What stands at a row: where its term's record is, the kind in the record, and the row's measure.
#[derive(Clone, Copy)]
struct Row {
    at: usize,
    kind: usize,
    measure: usize,
}

impl<'a> Terms<'a> {
    ghost use Rattle.store.specs.KeptTerms.{Holds, IsTermOn, Stands};
    ghost use Rattle.store.specs.KeptTerms.{kept_term, kept_width, root_kind};
    ghost use Rattle.store.specs.Sorts.{sort_read};

    pub fn new(job: &'a [u8], work: &'a [u8], rows: usize) -> Terms<'a>
        requires { Shelf job.now work.now rows }
        ensures { Holds result job.now work.now rows }
    {
        Terms { job, work, rows }
    }

    // The term at a place: `true`, `false`, or what the record of a row says.
    pub fn term_on(&self, place: u32) -> Term
        requires { place < first_terms + self.now.rows }
        ensures { IsTermOn self.now place result }
    {
        if place == TRUE {
            return Term::True;
        }
        if place == FALSE {
            return Term::False;
        }
        let at = rows::offset_at(self.job, self.work, place as usize - rows::FIRST_PLACE);
        // A row's record says a term, so that neither else is reached.
        let Ok(item) = Term::read(self.job, at) else {
            return Term::True;
        };
        let Item::Term(term) = item else {
            return Term::True;
        };
        term
    }

    // What stands at row k.
    fn row_as<N: Lengths>(&self, k: usize) -> Row
        requires kept { k < self.now.rows }
        requires own { N.BYTES ≡ number_length self.now.job.now }
        ensures { Stands self.now k result }
    {
        let len = N::LINK_BYTES;
        let at = rows::offset_as(self.work, len, k);
        let kind = number(self.job, at + Term::NUMBER_BYTES, Term::NUMBER_BYTES);
        let measure = rows::measure_as(self.work, len, k);
        Row { at, kind, measure }
    }

    // The width of row k's term, 0 for a Bool.
    fn row_width_as<N: Lengths>(&self, k: usize) -> usize
        requires kept { k < self.now.rows }
        requires own { N.BYTES ≡ number_length self.now.job.now }
        ensures { Bounded result (kept_width self.now (first_terms + k)) 256 }
    {
        let row = self.row_as::<N>(k);
        let size = number(self.job, row.at, Term::NUMBER_BYTES);
        width_in(N::BYTES, row.kind, size, row.measure)
    }

    // The same in the job's own number length. A call for each of the two: each is then compiled
    // for its length.
    pub fn row_width(&self, k: usize) -> usize
        requires { k < self.now.rows }
        ensures { Bounded result (kept_width self.now (first_terms + k)) 256 }
    {
        if Term::number_length(self.job) == Term::NUMBER_BYTES {
            return self.row_width_as::<Short>(k);
        }
        self.row_width_as::<Long>(k)
    }

    // The depth of row k's term.
    fn row_depth_as<N: Lengths>(&self, k: usize) -> usize
        requires kept { k < self.now.rows }
        requires own { N.BYTES ≡ number_length self.now.job.now }
        ensures { Bounded result (depth (kept_term self.now (first_terms + k))) place_end }
    {
        let row = self.row_as::<N>(k);
        depth_in(row.kind, row.measure)
    }

    // The same in the job's own number length.
    pub fn row_depth(&self, k: usize) -> usize
        requires { k < self.now.rows }
        ensures { Bounded result (depth (kept_term self.now (first_terms + k))) place_end }
    {
        if Term::number_length(self.job) == Term::NUMBER_BYTES {
            return self.row_depth_as::<Short>(k);
        }
        self.row_depth_as::<Long>(k)
    }

    // The depth of row k's term where it is a Bool.
    fn bool_depth_as<N: Lengths>(&self, k: usize) -> Option<u32>
        requires kept { k < self.now.rows }
        requires own { N.BYTES ≡ number_length self.now.job.now }
        ensures { result ≡ bool_depth (kept_term self.now (first_terms + k)) }
    {
        let row = self.row_as::<N>(k);
        bool_in(row.kind, row.measure)
    }

    // The depth of the term at a place where it is a Bool: its sort and its depth from one look at
    // its row.
    pub fn bool_depth(&self, place: u32) -> Option<u32>
        requires { place < first_terms + self.now.rows }
        ensures { result ≡ bool_depth (kept_term self.now place) }
    {
        let k = place as usize;
        if k < rows::FIRST_PLACE {
            return Some(0);
        }
        if Term::number_length(self.job) == Term::NUMBER_BYTES {
            return self.bool_depth_as::<Short>(k - rows::FIRST_PLACE);
        }
        self.bool_depth_as::<Long>(k - rows::FIRST_PLACE)
    }

    // The width of the term at a place, 0 for a Bool.
    pub fn width_on(&self, place: u32) -> u32
        requires { place < first_terms + self.now.rows }
        ensures { result ≡ kept_width self.now place }
    {
        let k = place as usize;
        if k < rows::FIRST_PLACE {
            return 0;
        }
        self.row_width(k - rows::FIRST_PLACE) as u32
    }

    // The sort of the term at a place.
    pub fn sort_on(&self, place: u32) -> Sort
        requires { place < first_terms + self.now.rows }
        ensures { sort_read result ≡ sort_of (kept_term self.now place) }
    {
        match self.width_on(place) {
            0 => Sort::Bool,
            width => Sort::Bv(width),
        }
    }

    // The number of the kind of the term at a place: `true` has 0, `false` 1, and a row the one in
    // its record.
    pub fn kind_on(&self, place: u32) -> u32
        requires { place < first_terms + self.now.rows }
        ensures { result ≡ root_kind (kept_term self.now place) }
    {
        let k = place as usize;
        if k < rows::FIRST_PLACE {
            return place;
        }
        let at = rows::offset_at(self.job, self.work, k - rows::FIRST_PLACE);
        number(self.job, at + Term::NUMBER_BYTES, Term::NUMBER_BYTES) as u32
    }
}
