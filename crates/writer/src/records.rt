// The records of a job.
use terms::Term;

// The whole records that are still to come.
#[derive(Drop)]
pub struct Records<'a> {
    pub rest: &'a [u8],
}

impl<'a> Iterator for Records<'a> {
    type Item = &'a [u8];

    ghost use Rattle.std.specs.Iterator.{YieldsFirstRef, item_count};
    ghost use Rattle.writer.specs.Records.{records_left};

    ghost next_gives = { YieldsFirstRef records_left };

    ghost remaining = { item_count records_left };

    #[inline]
    fn next(&mut self) -> Option<&'a [u8]> {
        let size = Term::frame(self.rest, 0)?;
        let (record, rest) = self.rest.split_at(size);
        self.rest = rest;
        Some(record)
    }
}
