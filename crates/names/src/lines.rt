// The lines of a text.
ghost use Rattle.std.specs.Prelude.{◌≡◌};

// The lines that are still to come, each without its newline.
#[derive(Drop)]
pub struct Lines<'a> {
    rest: &'a [u8],
}

impl<'a> Lines<'a> {
    pub fn new(text: &'a [u8]) -> Lines<'a>
        ensures { result.rest.now ≡ text.now }
    {
        Lines { rest: text }
    }
}

impl<'a> Iterator for Lines<'a> {
    type Item = &'a [u8];

    ghost use Rattle.std.specs.Iterator.{YieldsFirstRef, item_count};
    ghost use Rattle.names.specs.Lines.{lines_left};

    ghost next_gives = { YieldsFirstRef lines_left };

    ghost remaining = { item_count lines_left };

    #[inline]
    fn next(&mut self) -> Option<&'a [u8]> {
        let text = self.rest;
        if text.is_empty() {
            return None;
        }
        let newline = text.iter().position(|&b| b == b'\n');
        let end = newline.unwrap_or(text.len());
        self.rest = &text[text.len().min(end + 1)..];
        Some(&text[..end])
    }
}
