// One line of a text.
ghost use Rattle.std.specs.Prelude.{◌≡◌, false, [], ◌∷◌, ◌++◌, length};
ghost use Rattle.text.specs.Convert.{lines, take_line};
ghost use Rattle.names.specs.Kinds.{declared_in};
ghost use Rattle.writer.specs.Written.{room, Moved};
ghost use Rattle.convert.specs.Line.{told_state, Lined};

use entries::declarations::declare;
use entries::steps::take_step;
use names::marks::{left_after, word_after};
use writer::places::Writer;

// Between two lines: the text up to where the declarations end, how many these are, and whether a
// step was read.
#[derive(Clone, Copy)]
pub struct State<'a> {
    pub declarations: &'a [u8],
    pub declared: usize,
    pub begun: bool,
}

// Reads a line; `through` is the text up to where the line after it starts.
pub fn take_line<'a>(
    line: &[u8],
    through: &'a [u8],
    s: State<'a>,
    writer: &mut Writer<'_>,
) -> Option<State<'a>>
    requires counted { s.declared ≡ length (declared_in s.declarations.now) }
    requires follows { s.begun ≡ false
        → lines through.now ≡ lines s.declarations.now ++ (line.now ∷ []) }
    ensures moved { Moved writer.old writer.new }
    ensures takes { Lined through.now writer.new
        (take_line (room writer.old) (told_state writer.old s.entry) line.now) result }
{
    let a = left_after(line)?;
    if word_after(a, b"declare-const").is_some() {
        if s.begun {
            return None;
        }
        declare(line, s.declarations, s.declared, writer)?;
        return Some(State {
            declarations: through,
            declared: s.declared + 1,
            begun: false,
        });
    }
    let b = word_after(a, b"step")?;
    take_step(b, s.declarations, writer)?;
    Some(State { begun: true, ..s })
}
