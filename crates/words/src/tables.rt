// The names of kinds and rules.
ghost use Rattle.std.specs.Prelude.{◌≡◌, option_map};
ghost use Rattle.terms.specs.Numbered.{shape};
ghost use Rattle.text.specs.Spelling.{named, kind_names, rule_number};
ghost use Rattle.words.specs.Tables.{Beside};

use terms::kind::Kind;

// The names of the rules, with their numbers.
static RULES: [(&[u8], u32); 23] = [
    (b"value", 1),
    (b"var", 2),
    (b"and", 3),
    (b"or", 4),
    (b"xor", 5),
    (b"xnor", 6),
    (b"not", 7),
    (b"ult", 8),
    (b"slt", 9),
    (b"add", 10),
    (b"mult", 11),
    (b"neg", 12),
    (b"equality", 13),
    (b"comp", 14),
    (b"extract", 15),
    (b"concat", 16),
    (b"sign_extend", 17),
    (b"shl", 18),
    (b"lshr", 19),
    (b"ashr", 20),
    (b"udiv", 21),
    (b"urem", 22),
    (b"bitwise_slicing", 23),
];

// The names of the kinds.
static KINDS: [(&[u8], Kind); 27] = [
    (b"not", Kind::Not),
    (b"and", Kind::And),
    (b"or", Kind::Or),
    (b"xor", Kind::Xor),
    (b"=", Kind::Equals),
    (b"ite", Kind::Ite),
    (b"@bit_of", Kind::BvBitOf),
    (b"@bbterm", Kind::BvBbTerm),
    (b"bvnot", Kind::BvNot),
    (b"bvneg", Kind::BvNeg),
    (b"bvand", Kind::BvAnd),
    (b"bvor", Kind::BvOr),
    (b"bvxor", Kind::BvXor),
    (b"bvadd", Kind::BvAdd),
    (b"bvmul", Kind::BvMul),
    (b"bvxnor", Kind::BvXNor),
    (b"bvcomp", Kind::BvComp),
    (b"bvult", Kind::BvULt),
    (b"bvslt", Kind::BvSLt),
    (b"bvshl", Kind::BvShl),
    (b"bvlshr", Kind::BvLShr),
    (b"bvashr", Kind::BvAShr),
    (b"bvudiv", Kind::BvUDiv),
    (b"bvurem", Kind::BvURem),
    (b"concat", Kind::BvConcat),
    (b"extract", Kind::BvExtract),
    (b"sign_extend", Kind::SignExtend),
];

// The value beside a word in a table.
fn beside<T: Copy>(table: &[(&[u8], T)], word: &[u8]) -> Option<T>
    ensures { Beside word.now table.now result }
{
    for &(name, value) in table {
        if word == name {
            return Some(value);
        }
    }
    None
}

// The number of the rule of a name.
pub fn rule_named(word: &[u8]) -> Option<u32>
    ensures { result ≡ rule_number word.now }
{
    beside(&RULES, word)
}

// The kind of a name.
pub fn kind_named(word: &[u8]) -> Option<Kind>
    ensures { option_map shape result ≡ named word.now kind_names }
{
    beside(&KINDS, word)
}
