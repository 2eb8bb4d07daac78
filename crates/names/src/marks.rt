// Tokens that must follow: each function returns what stands after its token, if it comes next.
ghost use Rattle.std.specs.Prelude.{◌≡◌};
ghost use Rattle.theory.specs.Optional.{is_some};
ghost use Rattle.text.specs.Tokens.{left, right, end, word, after};
ghost use Rattle.text.specs.Reading.{first_word};
ghost use Rattle.names.specs.Marks.{rest_of, word_and_rest};

use words::tokens::{Token, next_token};

// A left parenthesis.
pub fn left_after(line: &[u8]) -> Option<&[u8]>
    ensures { rest_of result ≡ after left line.now }
{
    let next = next_token(line);
    match next.token {
        Token::Left => Some(next.rest),
        _ => None,
    }
}

// A right parenthesis.
pub fn right_after(line: &[u8]) -> Option<&[u8]>
    ensures { rest_of result ≡ after right line.now }
{
    let next = next_token(line);
    match next.token {
        Token::Right => Some(next.rest),
        _ => None,
    }
}

// A word, and what stands after it.
pub fn first_word(line: &[u8]) -> Option<(&[u8], &[u8])>
    ensures { word_and_rest result ≡ first_word line.now }
{
    let next = next_token(line);
    match next.token {
        Token::Word(word) => Some((word, next.rest)),
        _ => None,
    }
}

// That word.
pub fn word_after<'a>(line: &'a [u8], wanted: &[u8]) -> Option<&'a [u8]>
    ensures { rest_of result ≡ after (word wanted.now) line.now }
{
    let (word, rest) = first_word(line)?;
    (word == wanted).then_some(rest)
}

// Is nothing left of the line?
pub fn at_end(line: &[u8]) -> bool
    ensures { result ≡ is_some (after end line.now) }
{
    matches!(next_token(line).token, Token::End)
}
