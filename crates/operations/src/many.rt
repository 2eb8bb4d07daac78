// The operations of one argument or more, one argument after the other.
ghost use Rattle.operations.specs.Apply.{Extends, Extended, Starts, Started};

use crate::apply::{Many, Word};
use crate::words::{add_n, mul_n};

// The first argument of an operation of one or more.
pub fn start(op: Many, m: u32, x: u64) -> Word
    requires { Starts op m x }
    ensures { Started op m x result }
{
    match op {
        Many::Bits => Word { width: 1, value: x },
        Many::And
        | Many::Or
        | Many::BvAnd
        | Many::BvOr
        | Many::BvXor
        | Many::Add
        | Many::Mul
        | Many::Concat => Word { width: m, value: x },
    }
}

// What an operation comes to with one argument more, of width m.
pub fn extend(op: Many, a: Word, m: u32, x: u64) -> Word
    requires { Extends op a m x }
    ensures { Extended op a m x result }
{
    let w = a.width;
    let v = a.value;
    match op {
        Many::And | Many::BvAnd => Word {
            width: w,
            value: v & x,
        },
        Many::Or | Many::BvOr => Word {
            width: w,
            value: v | x,
        },
        Many::Bits => Word {
            width: w + 1,
            value: v + (x << w),
        },
        Many::BvXor => Word {
            width: w,
            value: v ^ x,
        },
        Many::Add => Word {
            width: w,
            value: add_n(w, v, x),
        },
        Many::Mul => Word {
            width: w,
            value: mul_n(w, v, x),
        },
        Many::Concat => Word {
            width: w + m,
            value: (v << m) + x,
        },
    }
}
