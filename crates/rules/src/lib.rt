// The machine types that the definitions speak of. Every rule itself stands in specs/.
#![tactic(auto)]

ghost use Rattle.std.specs.Prelude.{◌≡◌, cond, [], ◌∷◌, eqb};
ghost use Rattle.rules.specs.Primitives.{primitive, inputs_of};
ghost use Rattle.rules.specs.Meaning.{makes};
ghost use Rattle.rules.specs.Run.{to_byte, from_byte};
ghost use Rattle.rules.specs.Reasons.{number};

// A gate of a netlist: its five words (01, "Unfolding").
#[derive(Clone, Copy)]
pub struct Gate {
    pub kind: u16,
    pub a: u16,
    pub b: u16,
    pub c: u16,
    pub out: u16,
}

// Why a job is refused: each reason is one of the rules' numbers (01, "Numbers of the answers").
#[derive(Clone, Copy, PartialEq, Eq, Debug)]
pub enum Reason {
    // A lent buffer is shorter than its least size.
    ShortBuffer = 1,
    LongText = 2,
    // A byte or word of no kind.
    NoWord = 3,
    // A word, or the end, where the order of words forbids it.
    WrongOrder = 4,
    // One block, name, loop or level more than is allowed.
    TooMany = 5,
    DeclaredTwice = 6,
    // A name that is unknown or of the wrong sort.
    WrongName = 7,
    // Wrong counts, a vector for a wire, or a wire for a vector.
    WrongShape = 8,
    // No block main, or one with generics.
    NoMain = 9,
    // A value out of range.
    OutOfRange = 10,
    // A vector whose bounds are the wrong way round, or that is too long.
    WrongVector = 11,
    // A subscript outside its vector.
    OutsideVector = 12,
    UnequalVectors = 13,
    TooDeep = 14,
    TooManySteps = 15,
    TooManyWires = 16,
    TooManyGates = 17,
    // An output that is driven already, or that is one of main's inputs.
    DrivenTwice = 18,
    // A netlist that is not well formed, or a text that no well-formed netlist is written as.
    NotWellFormed = 19,
    // Run inputs of the wrong count, or a byte over 1.
    WrongInputs = 20,
}

impl Reason {
    pub fn number(self) -> usize
        ensures { result ≡ number self }
    {
        self as usize
    }
}

// A refusal: why, and the place in the text.
#[derive(Clone, Copy, PartialEq, Eq, Debug)]
pub struct Refusal {
    pub reason: Reason,
    pub place: usize,
}

// Kind numbers belong to the gate type as named constants (01, "Primitives"). No enum: a netlist's word may be any u16, and each function answers for all.
impl Gate {
    pub const CONNECT: u16 = 0;

    pub const NOT: u16 = 1;

    pub const AND: u16 = 2;

    pub const OR: u16 = 3;

    pub const XOR: u16 = 4;

    pub const NAND: u16 = 5;

    pub const NOR: u16 = 6;

    pub const MUX: u16 = 7;

    pub const ZERO: u16 = 8;

    pub const ONE: u16 = 9;

    // A kind's name; a number past the table has none.
    pub fn name(kind: u16) -> &'static [u8]
        ensures { result.now ≡ (primitive kind).name }
    {
        match kind {
            Gate::CONNECT => b"connect",
            Gate::NOT => b"not",
            Gate::AND => b"and",
            Gate::OR => b"or",
            Gate::XOR => b"xor",
            Gate::NAND => b"nand",
            Gate::NOR => b"nor",
            Gate::MUX => b"mux",
            Gate::ZERO => b"zero",
            Gate::ONE => b"one",
            _ => b"",
        }
    }

    // How many inputs a kind has; a number past the table has none.
    pub fn inputs(kind: u16) -> usize
        ensures { result ≡ inputs_of kind }
    {
        match kind {
            Gate::CONNECT | Gate::NOT => 1,
            Gate::AND | Gate::OR | Gate::XOR | Gate::NAND | Gate::NOR => 2,
            Gate::MUX => 3,
            _ => 0,
        }
    }

    // The output that a kind makes of its inputs: a byte is read as 1 or not, so that any byte may be given.
    pub fn bit(kind: u16, a: u8, b: u8, c: u8) -> u8
        ensures { result ≡ to_byte (makes kind (from_byte a ∷ from_byte b ∷ from_byte c ∷ [])) }
    {
        match kind {
            Gate::CONNECT => chosen(a, 0, 1),
            Gate::NOT => chosen(a, 1, 0),
            Gate::AND => chosen(a, 0, chosen(b, 0, 1)),
            Gate::OR => chosen(a, chosen(b, 0, 1), 1),
            Gate::XOR => chosen(a, chosen(b, 0, 1), chosen(b, 1, 0)),
            Gate::NAND => chosen(a, 1, chosen(b, 1, 0)),
            Gate::NOR => chosen(a, chosen(b, 1, 0), 0),
            Gate::MUX => chosen(a, chosen(b, 0, 1), chosen(c, 0, 1)),
            Gate::ONE => 1,
            _ => 0,
        }
    }
}

// v where the byte c stands for 1, else u.
fn chosen(c: u8, u: u8, v: u8) -> u8
    ensures { result ≡ cond (eqb c 1) v u }
{
    if c == 1 { v } else { u }
}

// A word of a text and where it stands: from its first byte to the byte after it (01, "Words and order of words").
#[derive(Clone, Copy)]
pub enum Word {
    // A byte or word of no kind.
    Bad(usize),
    Name(usize, usize),
    // A number also has its value.
    Number(usize, usize, usize),
    // A mark by its byte, `..` by one of its dots, a reserved word by its number, the end of the text by 0; then its place.
    // No enum: the definitions make this number of the byte itself, or of the word's place in their table (specs/Words).
    Mark(usize, usize, usize),
}
