// The record of a term, built number by number, and that of a step.
ghost use Rattle.std.specs.Prelude.{◌≡◌, ◌+◌, ◌≤◌, ◌++◌, length};
ghost use Rattle.std.proofs.lemmas.List.Edits.{sets};
ghost use Rattle.theory.specs.Limit.{max_arguments};
ghost use Rattle.theory.specs.Record.{bytes_of};
ghost use Rattle.terms.specs.Numbered.{shape};
ghost use Rattle.text.specs.Writing.{front_bytes, step_record, term_record};
ghost use Rattle.names.specs.Kinds.{shaped};
ghost use Rattle.writer.specs.Places.{key_bytes};

use arrayvec::ArrayVec;
use names::kinds::{Indices, family};
use rows::bytes::put_number_of;
use terms::Term;
use terms::kind::Kind;

// The bytes of the longest record of a term: a constant's kind has the most bytes of numbers.
const KEY_BYTES: usize = Term::BODY_AT
    + Term::NUMBER_BYTES
    + Term::VALUE_BYTES
    + Term::NUMBER_BYTES * Term::MAX_ARGUMENTS;

// A term's record.
pub type Key = ArrayVec<u8, KEY_BYTES>;

// A step's body is the rule's number and the literals, here one ..
const LITERAL_AT: usize = Term::BODY_AT + Term::NUMBER_BYTES;

// .. so that it has so many bytes.
pub const STEP_BYTES: usize = LITERAL_AT + Term::NUMBER_BYTES;

// Appends N bytes of a number.
fn put<const N: usize>(key: &mut Key, x: u64)
    requires few { N ≤ 8 }
    requires room { length key.old.items + N ≤ key_bytes }
    ensures { key.new.items ≡ key.old.items ++ bytes_of N x }
{
    key.try_extend_from_slice(&x.to_le_bytes()[..N]).unwrap();
}

// Appends the numbers in a kind.
fn put_front(kind: Kind, x: u64, y: u64, key: &mut Key)
    requires room { length key.old.items + 10 ≤ key_bytes }
    ensures { key.new.items ≡ key.old.items ++ front_bytes (shaped (shape kind) x y) }
{
    match family(kind) {
        Indices::Plain => {}
        Indices::Indexed => put::<{ Term::NUMBER_BYTES }>(key, x),
        Indices::TwiceIndexed => {
            put::<{ Term::NUMBER_BYTES }>(key, x);
            put::<{ Term::NUMBER_BYTES }>(key, y);
        }
        Indices::Valued => {
            put::<{ Term::NUMBER_BYTES }>(key, x);
            put::<{ Term::VALUE_BYTES }>(key, y);
        }
    }
}

// The record of a term of a kind with the numbers x and y in it.
pub fn encode(kind: Kind, x: u64, y: u64, numbers: &[u16]) -> Key
    requires few { length numbers.now ≤ max_arguments }
    ensures { result.items ≡ term_record (shaped (shape kind) x y) numbers.now }
{
    let body = kind.form().front + Term::NUMBER_BYTES * numbers.len();
    let mut key = Key::new();
    put::<{ Term::NUMBER_BYTES }>(&mut key, (Term::NUMBER_BYTES + body) as u64);
    put::<{ Term::NUMBER_BYTES }>(&mut key, u64::from(u32::from(kind)));
    put_front(kind, x, y, &mut key);
    for &number in numbers {
        put::<{ Term::NUMBER_BYTES }>(&mut key, u64::from(number));
    }
    key
}

// Stores the record of a step with one literal.
pub fn store_step(out: &mut [u8], at: usize, rule: u32, literal: u16)
    requires { at + 8 ≤ length out.old }
    ensures { out.new ≡ sets out.old at (step_record rule literal) }
{
    put_number_of::<{ Term::NUMBER_BYTES }>(out, at, STEP_BYTES - Term::NUMBER_BYTES);
    put_number_of::<{ Term::NUMBER_BYTES }>(out, at + Term::KIND_AT, Term::STEP_KIND as usize);
    put_number_of::<{ Term::NUMBER_BYTES }>(out, at + Term::BODY_AT, rule as usize);
    put_number_of::<{ Term::NUMBER_BYTES }>(out, at + LITERAL_AT, usize::from(literal));
}
