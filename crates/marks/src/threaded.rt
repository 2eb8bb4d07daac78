// Marks are threaded: the link of a marked row holds the next marked place.
ghost use Rattle.std.specs.Prelude.{◌+◌, ◌<◌, T};
ghost use Rattle.theory.specs.Limit.{first_terms};

use crate::links::Links;
use rows::FIRST_PLACE;

impl<'a> Links<'a> {
    ghost use Rattle.marks.specs.Links.{is_marked, Threaded};

    // Threads the marked places, downwards from the asked one. The link of that one leads to the
    // lowest.
    pub(crate) fn thread(&mut self, asked: u32)
        requires low { asked < first_terms + self.old.rows }
        requires top { T (is_marked self.old asked) }
        ensures { Threaded self.old asked self.new }
    {
        let mut next = asked + 1;
        for k in (FIRST_PLACE as u32..=asked).rev() {
            if self.is_marked(k) {
                self.link(k, next);
                next = k;
            }
        }
        self.link(asked, next);
    }
}
