// A term's reader calls the reader of its arguments, which calls it again.
ghost use Rattle.std.specs.Prelude.{◌≡◌, ◌≤◌};
ghost use Rattle.theory.specs.Limit.{max_arguments};
ghost use Rattle.theory.specs.Kind.{arity, takes};
ghost use Rattle.names.specs.Kinds.{op_of, declared_in};
ghost use Rattle.writer.specs.Written.{job_of, room, Moved};
ghost use Rattle.reader.specs.Reader.{leaf_write, read_write, read_write_all};
ghost use Rattle.reader.specs.Reader.{fitting, finish, told_read, got_list, told_list};

use heads::heads::{Start, begin};
use names::kinds::Operator;
use names::marks::right_after;
use terms::Term;
use writer::places::Writer;

// A term that was read and put: what stands after it, and its number.
#[derive(Clone, Copy)]
pub struct Read<'a> {
    pub rest: &'a [u8],
    pub number: usize,
}

// Arguments that were read and put: what stands after them, and their numbers, the first `count`
// of `numbers`, which fit into a record.
#[derive(Clone, Copy)]
pub struct List<'a> {
    pub rest: &'a [u8],
    pub numbers: [u16; Term::MAX_ARGUMENTS],
    pub count: usize,
}

// Has an operator so many arguments?
fn allowed(operator: Operator, count: usize) -> bool
    ensures { result ≡ takes (arity (op_of operator)) count }
{
    match operator {
        Operator::True | Operator::False => count == 0,
        Operator::Of(kind, _, _) => {
            let form = kind.form();
            form.least <= count && count <= form.most
        }
    }
}

// Puts a term whose arguments are put, where its operator has so many.
fn finish<'a>(operator: Operator, list: &List<'a>, writer: &mut Writer<'_>) -> Option<Read<'a>>
    requires few { list.now.count ≤ max_arguments }
    ensures moved { Moved writer.old writer.new }
    ensures reads { told_read writer.new result
        ≡ finish (room writer.old) (op_of operator) (got_list writer.old list.now) }
{
    let numbers = &list.numbers[..list.count];
    if !allowed(operator, numbers.len()) {
        return None;
    }
    let number = writer.put_term(operator, numbers)?;
    Some(Read {
        rest: list.rest,
        number,
    })
}

// Puts a term without arguments; `rest` is what stands after it.
fn finish_leaf<'a>(rest: &'a [u8], operator: Operator, writer: &mut Writer<'_>) -> Option<Read<'a>>
    ensures moved { Moved writer.old writer.new }
    ensures reads { told_read writer.new result
        ≡ leaf_write (room writer.old) (op_of operator) rest.now (job_of writer.old) }
{
    let number = writer.put_term(operator, &[])?;
    Some(Read { rest, number })
}

// Reads the term that a line begins with, nested no deeper than `nesting`, and puts it.
#[cycle(read_arguments_read_term)]
pub fn read_term<'a>(
    line: &'a [u8],
    nesting: usize,
    declarations: &[u8],
    writer: &mut Writer<'_>,
) -> Option<Read<'a>>
    ensures moved { Moved writer.old writer.new }
    ensures reads { told_read writer.new result
        ≡ read_write nesting (declared_in declarations.now) (room writer.old) line.now
        (job_of writer.old) }
{
    match begin(line, declarations)? {
        Start::Leaf(operator, rest) => finish_leaf(rest, operator, writer),
        Start::Branch(operator, rest) => {
            if nesting == 0 {
                return None;
            }
            let mut list = List {
                rest,
                numbers: [0; Term::MAX_ARGUMENTS],
                count: 0,
            };
            read_arguments(&mut list, nesting - 1, declarations, writer)?;
            finish(operator, &list, writer)
        }
    }
}

// Reads arguments up to a closing parenthesis, puts them and fills the list with their numbers. The
// list is the caller's, so that a level of nesting has one on the stack.
#[cycle(read_arguments_read_term)]
fn read_arguments<'a>(
    list: &mut List<'a>,
    nesting: usize,
    declarations: &[u8],
    writer: &mut Writer<'_>,
) -> Option<()>
    requires empty { list.old.count ≡ 0 }
    ensures moved { Moved writer.old writer.new }
    ensures few { list.new.count ≤ max_arguments }
    ensures lists { told_list writer.new list.new result
        ≡ fitting (read_write_all nesting (declared_in declarations.now) (room writer.old)
        max_arguments list.old.rest.now (job_of writer.old)) }
{
    for count in 0..Term::MAX_ARGUMENTS {
        if let Some(rest) = right_after(list.rest) {
            list.rest = rest;
            return Some(());
        }
        let term = read_term(list.rest, nesting, declarations, writer)?;
        // A number of more than two bytes: no record holds it, and its parent can't be written.
        let number = u16::try_from(term.number).ok()?;
        list.numbers[count] = number;
        list.count = count + 1;
        list.rest = term.rest;
    }
    list.rest = right_after(list.rest)?;
    Some(())
}
