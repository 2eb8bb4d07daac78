// The tokens of a line.
ghost use Rattle.std.specs.Prelude.{◌≡◌, ◌<◌, length, drop, get_or, false};
ghost use Rattle.text.specs.Tokens.{is_blank, in_word, in_symbol, next, front_word};
ghost use Rattle.words.specs.Words.{told_next};

// A token.
#[derive(Clone, Copy)]
pub enum Token<'a> {
    Left,
    Right,
    End,
    Bad,
    Word(&'a [u8]),
}

// A token, and what stands after it.
#[derive(Clone, Copy)]
pub struct Next<'a> {
    pub token: Token<'a>,
    pub rest: &'a [u8],
}

// A space, a tab or a carriage return?
pub fn is_blank(b: u8) -> bool
    ensures { result ≡ is_blank b }
{
    matches!(b, b' ' | b'\t' | b'\r')
}

// A byte of a word?
#[tactic(auto, using(crate::proofs::WordLaws::word_ranges, std::proofs::lemmas::Bool::Decides::nat_tests))]
pub fn in_word(b: u8) -> bool
    ensures { result ≡ in_word b }
{
    matches!(b, b'a'..=b'z' | b'-'..=b':' | b'<'..=b'Z' | b'#'..=b'&' | b'*'..=b'+' | b'^'..=b'_')
        || b == b'!'
        || b == b'~'
}

// A byte of a symbol: of a word, but not one that constants and `:rule` begin with.
pub fn in_symbol(b: u8) -> bool
    ensures { result ≡ in_symbol b }
{
    if b == b'#' {
        return false;
    }
    if b == b':' {
        return false;
    }
    in_word(b)
}

// What stands after the blanks that a line begins with.
fn skip_blanks(line: &[u8]) -> &[u8]
    ensures same { next result.now ≡ next line.now }
    ensures black { 0 < length result.now → is_blank (get_or result.now 0 0) ≡ false }
{
    let start = line.iter().position(|&b| !is_blank(b));
    &line[start.unwrap_or(line.len())..]
}

// The word that a line begins with, and what stands after it.
fn split_word(line: &[u8]) -> (&[u8], &[u8])
    ensures word { result.0.now ≡ front_word line.now }
    ensures rest { result.1.now ≡ drop (length (front_word line.now)) line.now }
{
    let end = line.iter().position(|&b| !in_word(b));
    line.split_at(end.unwrap_or(line.len()))
}

// The first token of a line.
pub fn next_token(line: &[u8]) -> Next<'_>
    ensures { told_next result ≡ next line.now }
{
    let line = skip_blanks(line);
    let Some((&b, rest)) = line.split_first() else {
        return Next {
            token: Token::End,
            rest: &[],
        };
    };
    if b == b'(' {
        return Next {
            token: Token::Left,
            rest,
        };
    }
    if b == b')' {
        return Next {
            token: Token::Right,
            rest,
        };
    }
    if !in_word(b) {
        return Next {
            token: Token::Bad,
            rest,
        };
    }
    let (word, rest) = split_word(line);
    Next {
        token: Token::Word(word),
        rest,
    }
}
