// The terms that stand in the asked one are marked, and no others.
ghost use Rattle.std.specs.Prelude.{◌+◌, ◌<◌};
ghost use Rattle.theory.specs.Limit.{first_terms};
ghost use Rattle.terms.specs.Decoded.{OperandsPlaced, Inside, words_in, numbers_of};
ghost use Rattle.store.specs.Shelf.{TermOn};

use crate::links::Links;
use rows::FIRST_PLACE;
use store::shelf::Terms;
use terms::{Args, Operands, Term};

impl<'a> Links<'a> {
    ghost use Rattle.marks.specs.Links.{InRows, Cleared, Set, SetAll, SetTerm, Reaches};

    // Takes the mark off every row.
    fn clear(&mut self)
        ensures { Cleared self.old self.new }
    {
        for k in 0..self.rows {
            self.put(k, 0);
        }
    }

    // Marks the term at a place.
    fn set(&mut self, place: u32)
        requires { place < first_terms + self.old.rows }
        ensures { Set self.old place self.new }
    {
        self.link(place, 1);
    }

    // Marks the terms of a list.
    fn set_list(&mut self, a: Args)
        requires inside { Inside self.old.job.now a }
        requires low { InRows self.old (words_in self.old.job.now a) }
        ensures { SetAll self.old (words_in self.old.job.now a) self.new }
    {
        for k in a.numbers(self.job) {
            self.set(k);
        }
    }

    // Marks the terms that these arguments are.
    fn set_operands(&mut self, ops: Operands)
        requires placed { OperandsPlaced self.old.job.now ops }
        requires low { InRows self.old (numbers_of self.old.job.now ops) }
        ensures { SetAll self.old (numbers_of self.old.job.now ops) self.new }
    {
        match ops {
            Operands::None => {}
            Operands::One(x) => {
                self.set(x);
            }
            Operands::Two(x, y) => {
                self.set(x);
                self.set(y);
            }
            Operands::Three(x, y, z) => {
                self.set(x);
                self.set(y);
                self.set(z);
            }
            Operands::List(a) => {
                self.set_list(a);
            }
        }
    }

    // The term at a place.
    fn term_on(&self, place: u32) -> Term
        requires { place < first_terms + self.now.rows }
        ensures { TermOn self.now.job.now self.now.work.now self.now.rows place result }
    {
        Terms::new(self.job, self.work, self.rows).term_on(place)
    }

    // Marks the arguments of the term at a place.
    fn set_term(&mut self, place: u32)
        requires { place < first_terms + self.old.rows }
        ensures { SetTerm self.old place self.new }
    {
        let t = self.term_on(place);
        self.set_operands(t.operands());
    }

    // Marks the terms that stand in the asked one, and no others: downwards, since arguments have
    // smaller numbers.
    pub(crate) fn down(&mut self, asked: u32)
        requires { asked < first_terms + self.old.rows }
        ensures { Reaches self.old asked self.new }
    {
        self.clear();
        self.set(asked);
        for k in (FIRST_PLACE as u32..=asked).rev() {
            if self.is_marked(k) {
                self.set_term(k);
            }
        }
    }
}
