// The kinds of term that a record says, by their numbers in a job. `True` and `False` have no
// record, and no kind here.
ghost use Rattle.std.specs.Prelude.{◌≡◌, ◌/◌, ◌%◌};
ghost use Rattle.terms.specs.Numbered.{shape, number_of, Decodes};
ghost use Rattle.terms.specs.Bodies.{Length, form_of, sized};

use super::Term;

#[derive(Clone, Copy, Debug, PartialEq, Eq)]
pub enum Kind {
    BoolVar = 10,
    BvVar = 11,
    Const = 12,
    Not = 20,
    And = 21,
    Or = 22,
    Xor = 23,
    Equals = 24,
    Ite = 25,
    BvBitOf = 30,
    BvBbTerm = 31,
    BvNot = 40,
    BvNeg = 41,
    BvAnd = 42,
    BvOr = 43,
    BvXor = 44,
    BvAdd = 45,
    BvMul = 46,
    BvXNor = 47,
    BvComp = 48,
    BvULt = 49,
    BvSLt = 50,
    BvShl = 51,
    BvLShr = 52,
    BvAShr = 53,
    BvUDiv = 54,
    BvURem = 55,
    BvConcat = 56,
    BvExtract = 57,
    SignExtend = 58,
    ZeroExtend = 60,
    RotateLeft = 61,
    RotateRight = 62,
    Repeat = 63,
}

// A number that no kind has.
#[derive(Clone, Copy, Debug, PartialEq, Eq)]
pub struct UnknownKind(pub u32);

// The body of a record: so many bytes of numbers in front, then from a least to a greatest number
// of arguments.
#[derive(Clone, Copy)]
pub struct Form {
    pub front: usize,
    pub least: usize,
    pub most: usize,
}

// Its number in a job.
impl From<Kind> for u32 {
    ghost from_gives = { λ kind number. number ≡ number_of kind };

    fn from(kind: Kind) -> Self {
        kind as u32
    }
}

impl Kind {
    // The form of its body, by document 01's table of kinds.
    pub fn form(self) -> Form
        ensures { result ≡ form_of (shape self) }
    {
        let number = Term::NUMBER_BYTES;
        let many = Term::MAX_ARGUMENTS;
        match self {
            Kind::BoolVar => Form::new(number, 0, 0),
            Kind::BvVar => Form::new(2 * number, 0, 0),
            Kind::Const => Form::new(number + Term::VALUE_BYTES, 0, 0),
            Kind::Not | Kind::BvNot | Kind::BvNeg => Form::new(0, 1, 1),
            Kind::And | Kind::Or | Kind::BvBbTerm | Kind::BvConcat => Form::new(0, 1, many),
            Kind::BvAnd | Kind::BvOr | Kind::BvXor => Form::new(0, 1, many),
            Kind::BvAdd | Kind::BvMul => Form::new(0, 1, many),
            Kind::Xor | Kind::Equals | Kind::BvXNor | Kind::BvComp => Form::new(0, 2, 2),
            Kind::BvULt | Kind::BvSLt | Kind::BvShl | Kind::BvLShr => Form::new(0, 2, 2),
            Kind::BvAShr | Kind::BvUDiv | Kind::BvURem => Form::new(0, 2, 2),
            Kind::Ite => Form::new(0, 3, 3),
            Kind::BvExtract => Form::new(2 * number, 1, 1),
            Kind::BvBitOf | Kind::SignExtend | Kind::ZeroExtend => Form::new(number, 1, 1),
            Kind::RotateLeft | Kind::RotateRight | Kind::Repeat => Form::new(number, 1, 1),
        }
    }
}

impl Form {
    fn new(front: usize, least: usize, most: usize) -> Form
        ensures { result ≡ record { front = front; least = least; most = most } }
    {
        Form { front, least, most }
    }

    // How many numbers of so many bytes fit into a size: by a constant where they are short, since
    // a division by one that is not known takes several times as long.
    pub(crate) fn count_in(size: usize, bytes: usize) -> usize
        requires { Length bytes }
        ensures { result ≡ size / bytes }
    {
        if bytes == Term::NUMBER_BYTES {
            return size / Term::NUMBER_BYTES;
        }
        size / bytes
    }

    // How many bytes are left after these numbers.
    fn left_in(size: usize, bytes: usize) -> usize
        requires { Length bytes }
        ensures { result ≡ size % bytes }
    {
        if bytes == Term::NUMBER_BYTES {
            return size % Term::NUMBER_BYTES;
        }
        size % bytes
    }

    // Has a body of `size` bytes this form, where an argument has so many?
    pub(crate) fn fits(self, size: usize, bytes: usize) -> bool
        requires { Length bytes }
        ensures { result ≡ sized bytes size self }
    {
        if size < self.front {
            return false;
        }
        let rest = size - self.front;
        let count = Form::count_in(rest, bytes);
        Form::left_in(rest, bytes) == 0 && self.least <= count && count <= self.most
    }
}

impl TryFrom<u32> for Kind {
    type Error = UnknownKind;

    ghost try_from_gives = { Decodes };

    #[inline]
    fn try_from(number: u32) -> Result<Self, UnknownKind> {
        match number {
            10 => Ok(Kind::BoolVar),
            11 => Ok(Kind::BvVar),
            12 => Ok(Kind::Const),
            20 => Ok(Kind::Not),
            21 => Ok(Kind::And),
            22 => Ok(Kind::Or),
            23 => Ok(Kind::Xor),
            24 => Ok(Kind::Equals),
            25 => Ok(Kind::Ite),
            30 => Ok(Kind::BvBitOf),
            31 => Ok(Kind::BvBbTerm),
            40 => Ok(Kind::BvNot),
            41 => Ok(Kind::BvNeg),
            42 => Ok(Kind::BvAnd),
            43 => Ok(Kind::BvOr),
            44 => Ok(Kind::BvXor),
            45 => Ok(Kind::BvAdd),
            46 => Ok(Kind::BvMul),
            47 => Ok(Kind::BvXNor),
            48 => Ok(Kind::BvComp),
            49 => Ok(Kind::BvULt),
            50 => Ok(Kind::BvSLt),
            51 => Ok(Kind::BvShl),
            52 => Ok(Kind::BvLShr),
            53 => Ok(Kind::BvAShr),
            54 => Ok(Kind::BvUDiv),
            55 => Ok(Kind::BvURem),
            56 => Ok(Kind::BvConcat),
            57 => Ok(Kind::BvExtract),
            58 => Ok(Kind::SignExtend),
            60 => Ok(Kind::ZeroExtend),
            61 => Ok(Kind::RotateLeft),
            62 => Ok(Kind::RotateRight),
            63 => Ok(Kind::Repeat),
            _ => Err(UnknownKind(number)),
        }
    }
}
