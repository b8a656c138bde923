// The tape: a program as words in the lent work table. The encoding stands in specs/Encoding, the layout of a word in specs/Layout.
#![tactic(auto)]

ghost use Rattle.std.specs.Prelude.{ℕ, ◌≡◌, ◌+◌, ◌*◌, ◌-◌, ◌<◌, ◌≤◌, length, set, eqb};
ghost use Rattle.tape.specs.Layout.{pack, kind_of, head_in, value_of, spelt};
ghost use Rattle.tape.specs.Kinds.{code};

// What a reader has read: where it ends in the text, where its words end on the tape, and how many names its block has then (0 from a
// reader that declares none, so that all readers answer with one type).
#[derive(Clone, Copy, PartialEq, Eq, Debug)]
pub struct Read {
    pub next: usize,
    pub end: usize,
    pub names: usize,
}

// What a word of the tape is about. A word has room for sixteen kinds; the two free ones are named, as `store` takes every kind that fits.
#[derive(Clone, Copy, PartialEq, Eq, Debug)]
pub enum Kind {
    Number,
    Name,
    Bracket,
    Call,
    Input,
    Output,
    Loop,
    Index,
    Body,
    Block,
    Generic,
    In,
    Out,
    Var,
    FirstFree,
    SecondFree,
}

impl Kind {
    // Its number in a word.
    pub fn code(self) -> u32
        ensures { (result ≡ code self) × (result < 16) }
    {
        self as u32
    }
}

// A kind is told by a `Kind`, or by its number, which may be any: one that no word can have is the kind of none.
pub trait Coded: Copy {
    ghost code: { Self → ℕ };

    fn code(self) -> u32
        ensures { result ≡ code self };
}

impl Coded for Kind {
    ghost code = { code };

    fn code(self) -> u32 {
        Kind::code(self)
    }
}

impl Coded for u32 {
    ghost code = { λ n. n };

    fn code(self) -> u32 {
        self
    }
}

pub fn kind_of(word: u32) -> u32
    ensures { result ≡ kind_of word }
{
    word / 268435456
}

// Whether a word is of a kind.
pub fn is(word: u32, kind: Kind) -> bool
    ensures { result ≡ eqb (kind_of word) (code kind) }
{
    kind_of(word) == kind.code()
}

pub fn head_of(word: u32) -> u32
    ensures { result ≡ head_in word }
{
    word / 33554432 % 8
}

// `as` is proved to fit here and in `store`: `try_from` would want an arm that never runs.
pub fn value_of(word: u32) -> usize
    ensures { result ≡ value_of word }
{
    (word % 33554432) as usize
}

// A word of the tape.
pub fn store(tape: &mut [u32], to: usize, kind: Kind, head: u32, value: usize)
    requires { (to < length tape.old) × (head < 8) × (value < 33554432) }
    ensures { tape.new ≡ set tape.old to (pack (code kind) head value) }
{
    tape[to] = (kind.code() * 8 + head) * 33554432 + value as u32;
}

// The word of a name that goes from p to q.
pub fn store_name(tape: &mut [u32], to: usize, kind: Kind, head: u32, p: usize, q: usize)
    requires { (to < length tape.old) × (head < 8) × (p < 32768) × (p ≤ q) × (q ≤ p + 16) }
    ensures { tape.new ≡ set tape.old to (pack (code kind) head (spelt p q)) }
{
    store(tape, to, kind, head, p * 32 + (q - p));
}

// An element of a row is set; past its end nothing is.
pub fn keep<T: Copy>(row: &mut [T], i: usize, element: T)
    ensures { row.new ≡ set row.old i element }
{
    if i < row.len() {
        row[i] = element;
    }
}
