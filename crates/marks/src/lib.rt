// Marks on the kept terms of a job whose records are all taken: which of them stand in the asked
// one. A row's mark is in the bytes of its link, which is not needed any more. Marks are threaded:
// the link of a marked row holds the next marked place, so that a pass over the marked terms meets
// no other.
//
// To read: links (one mark), marked (all of them), threaded, and here the walk over them.
#![tactic(auto, using(crate::proofs::Sets::laws))]

ghost use Rattle.std.specs.Prelude.{◌≡◌, T, suc, ◌+◌, ◌-◌, ◌^◌, ◌≤◌, ◌<◌};
ghost use Rattle.theory.specs.Limit.{first_terms};
ghost use Rattle.store.specs.Shelf.{Shelf};
ghost use Rattle.rows.specs.Layout.{link_size};
ghost use Rattle.marks.specs.Marks.{mark_of, Room, following, Marks, Marked};
ghost use Rattle.std.proofs.Math.Bool.{Bool-set};
ghost use Rattle.std.proofs.Math.Dec.{T_prop};
ghost use Rattle.theory.proofs.Facts.{kept_facts};

use crate::links::{Links, linked};
use rows::link_bytes;
use store::gates::{FALSE, TRUE};
use store::shelf::Terms;
use terms::Term;

mod links;
mod marked;
mod threaded;

// The next marked place after a marked one, up to the asked one.
pub fn next_marked(job: &[u8], work: &[u8], asked: u32, place: u32) -> u32
    requires last { Room job.now work.now asked }
    requires room { Room job.now work.now place }
    requires small { suc asked < 256 ^ link_size job.now }
    requires below { place ≤ asked }
    ensures { result ≡ following job.now work.now asked place }
{
    if place == asked {
        return asked + 1;
    }
    if place == TRUE {
        return FALSE;
    }
    if place == FALSE {
        return linked(job, work, asked);
    }
    linked(job, work, place)
}

// Marks the terms that stand in the asked one, and no others, and threads them.
pub fn mark_from(job: &[u8], work: &mut [u8], n: usize, asked: u32)
    requires shelf { Shelf job.now work.old n }
    requires low { asked < first_terms + n }
    ensures { Marks job.now work.old n asked work.new }
{
    let mut links = Links {
        job,
        work,
        rows: n,
        link_bytes: link_bytes(Term::number_length(job)),
    };
    links.down(asked);
    links.thread(asked);
}

// The asked term of a job, by its place, where the terms that stand in it, and no others, are
// marked and threaded.
#[derive(Clone, Copy)]
pub struct Asked<'a> {
    pub terms: Terms<'a>,
    pub place: u32,
    ghost marks: { Marked terms.job.now terms.work.now terms.rows place } by { Prim.hlevel (kept_facts, Bool-set, T_prop) },
}

impl<'a> Asked<'a> {
    ghost use Rattle.store.specs.KeptTerms.{Holds};
    ghost use Rattle.marks.specs.Asked.{next_of};

    pub fn new(job: &'a [u8], work: &'a [u8], rows: usize, place: u32) -> Asked<'a>
        requires { Marked job.now work.now rows place }
        ensures terms { Holds result.terms job.now work.now rows }
        ensures place { result.place ≡ place }
    {
        Asked {
            terms: Terms::new(job, work, rows),
            place,
        }
    }

    // The next marked place after a marked one, up to the asked one.
    #[inline]
    pub fn next_marked(&self, place: u32) -> u32
        requires { place ≤ self.now.place }
        ensures { result ≡ next_of self.now place }
    {
        next_marked(self.terms.job, self.terms.work, self.place, place)
    }

    // The marked places up to the asked one, upwards.
    #[inline]
    pub fn places(&self) -> Places<'a>
        ensures asked { result.asked ≡ self.now }
        ensures first { result.next ≡ 0 }
    {
        Places {
            asked: *self,
            next: 0,
        }
    }
}

// The marked places from one of them on, up to the asked one.
#[derive(Drop)]
pub struct Places<'a> {
    asked: Asked<'a>,
    next: u32,
    ghost marked: { next ≤ asked.place → T (mark_of asked.terms.job.now asked.terms.work.now next) } by { Prim.hlevel T_prop },
}

impl<'a> Iterator for Places<'a> {
    type Item = u32;

    ghost use Rattle.std.specs.Iterator.{at_most};
    ghost use Rattle.marks.specs.Places.{GivesNext};

    ghost next_gives = { GivesNext };

    ghost remaining = { λ s. at_most (suc s.asked.place - s.next) };

    #[inline]
    fn next(&mut self) -> Option<u32> {
        let k = self.next;
        if self.asked.place < k {
            return None;
        }
        self.next = self.asked.next_marked(k);
        Some(k)
    }
}
