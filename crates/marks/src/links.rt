// The links of a job's rows, and marks in them: a mark is 0 for none, or a place.
ghost use Rattle.std.specs.Prelude.{◌≡◌, ◌+◌, ◌-◌, ◌^◌, ◌≤◌, ◌<◌};
ghost use Rattle.theory.specs.Limit.{first_terms};
ghost use Rattle.theory.proofs.Facts.{kept_facts};
ghost use Rattle.rows.specs.Layout.{link_at, link_size};
ghost use Rattle.store.specs.Shelf.{Shelf};
ghost use Rattle.marks.specs.Marks.{Room};

use rows::bytes::put_number;
use rows::layout::{LONG_LINK_BYTES, OFFSET_BYTES};
use rows::{FIRST_PLACE, link_at};
use terms::Term;

// The number in the link of a row's place. A call for each number length: each is then compiled for
// its length.
pub(crate) fn linked(job: &[u8], work: &[u8], place: u32) -> u32
    requires row { first_terms ≤ place }
    requires room { Room job.now work.now place }
    ensures { result ≡ link_at (link_size job.now) work.now (place - first_terms) }
{
    let k = place as usize - FIRST_PLACE;
    if Term::number_length(job) == Term::NUMBER_BYTES {
        return link_at(work, Term::NUMBER_BYTES, k) as u32;
    }
    link_at(work, LONG_LINK_BYTES, k) as u32
}

// A job's bytes, the memory that it lends, how many rows are kept in it, and the bytes of a link:
// links are written, and nothing else of the rows.
#[derive(Drop)]
pub(crate) struct Links<'a> {
    pub(crate) job: &'a [u8],
    pub(crate) work: &'a mut [u8],
    pub(crate) rows: usize,
    pub(crate) link_bytes: usize,
    pub(crate) ghost sized: { link_bytes ≡ link_size job.now },
    pub(crate) ghost shelf: { Shelf job.now work.now rows } by { Prim.hlevel kept_facts },
}

impl<'a> Links<'a> {
    ghost use Rattle.marks.specs.Links.{is_marked, Put, Linked};

    // Stores v in the link of row k.
    pub(crate) fn put(&mut self, k: usize, v: usize)
        requires { k < self.old.rows }
        ensures { Put self.old k v self.new }
    {
        let link = self.link_bytes;
        put_number(
            self.work,
            k * (OFFSET_BYTES + 2 * link) + OFFSET_BYTES + link,
            link,
            v,
        );
    }

    // Stores v, a place, in the link of a place. `true` and `false` have none.
    pub(crate) fn link(&mut self, place: u32, v: u32)
        requires low { place < first_terms + self.old.rows }
        requires small { v < 256 ^ link_size self.old.job.now }
        ensures { Linked self.old place v self.new }
    {
        let p = place as usize;
        if FIRST_PLACE <= p {
            self.put(p - FIRST_PLACE, v as usize);
        }
    }

    // Is the term at a place marked? `true` and `false` always are.
    pub(crate) fn is_marked(&self, place: u32) -> bool
        requires { place < first_terms + self.now.rows }
        ensures { result ≡ is_marked self.now place }
    {
        let p = place as usize;
        if p < FIRST_PLACE {
            return true;
        }
        link_at(self.work, self.link_bytes, p - FIRST_PLACE) != 0
    }
}
