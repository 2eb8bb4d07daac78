// A declaration line.
ghost use Rattle.std.specs.Prelude.{◌≡◌, false, length};
ghost use Rattle.text.specs.Reading.{bind};
ghost use Rattle.text.specs.Convert.{state, declare};
ghost use Rattle.text.specs.Claim.{declared_by};
ghost use Rattle.names.specs.Kinds.{declared_in};
ghost use Rattle.writer.specs.Written.{job_of, room, Moved};
ghost use Rattle.entries.specs.Declarations.{told_declared};

use names::names::{declared_by, find_name, variable};
use writer::places::Writer;

// A declaration where `declared` variables are declared: the name is new and its number fits; the
// variable is put.
pub fn declare(
    line: &[u8],
    declarations: &[u8],
    declared: usize,
    writer: &mut Writer<'_>,
) -> Option<()>
    requires { declared ≡ length (declared_in declarations.now) }
    ensures moved { Moved writer.old writer.new }
    ensures declares { told_declared line.now (declared_in declarations.now) writer.new result
        ≡ bind (declared_by line.now) (declare (room writer.old)
        (state (declared_in declarations.now) false (job_of writer.old))) }
{
    let d = declared_by(line)?;
    if find_name(declarations, d.name).is_some() {
        return None;
    }
    let number = u16::try_from(declared).ok()?;
    let operator = variable(u64::from(number), d.width);
    writer.put_term(operator, &[])?;
    Some(())
}
