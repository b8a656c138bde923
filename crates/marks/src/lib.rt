// One word of a text, where a certain one is wanted.
#![tactic(auto)]

ghost use Rattle.std.specs.Prelude.{◌≡◌, ℕ, ◌≤◌, length, IfOk, IfSome};
ghost use Rattle.rules.specs.Words.{word_at};
ghost use Rattle.rules.specs.Readers.{spelling, a_name};
ghost use Rattle.rules.specs.Grammar.{is_sum, is_product};
ghost use Rattle.marks.specs.Keys.{code};
ghost use Rattle.marks.specs.Marks.{Tells, unwanted, mark_at, Spots, Joins, dividing};
ghost use Rattle.marks.specs.Room.{Past, Named, Joined, Parted};

use rules::{Reason, Refusal, Word};

// Marks by their bytes, reserved words by their numbers, the end of the text by 0: as `key` of the rules has them.
#[derive(Clone, Copy, PartialEq, Eq, Debug)]
pub enum Key {
    Nothing = 0,
    Block = 1,
    Var = 2,
    Begin = 3,
    End = 4,
    Generate = 5,
    For = 6,
    If = 7,
    Then = 8,
    Wire = 9,
    Vector = 10,
    Of = 11,
    Num = 12,
    Beside = 13,
    Below = 14,
    Open = 40,
    Close = 41,
    Times = 42,
    Plus = 43,
    Comma = 44,
    Minus = 45,
    Dots = 46,
    Colon = 58,
    Semicolon = 59,
    Equals = 61,
    Left = 91,
    Right = 93,
}

impl Key {
    pub fn code(self) -> usize
        ensures { result ≡ code self }
    {
        self as usize
    }
}

// What is wanted is told by a `Key`, or by a number, which may be any: one that no word has is never found.
pub trait Coded: Copy {
    ghost code: { Self → ℕ };

    fn code(self) -> usize
        ensures { result ≡ code self };
}

impl Coded for Key {
    ghost code = { code };

    fn code(self) -> usize {
        Key::code(self)
    }
}

impl Coded for usize {
    ghost code = { λ n. n };

    fn code(self) -> usize {
        self
    }
}

// A word that was wanted: its place, and where it ends.
#[derive(Clone, Copy, PartialEq, Eq, Debug)]
pub struct Spot {
    pub next: usize,
    pub place: usize,
}

// A mark that joins: where it ends, and the head of the factor after it, a number as a word of the tape has it (tape specs/Layout).
#[derive(Clone, Copy, PartialEq, Eq, Debug)]
pub struct Joint {
    pub next: usize,
    pub head: u32,
}

// What stands after an item of a list: the mark that divides, or the mark that closes, by where it ends.
#[derive(Clone, Copy, PartialEq, Eq, Debug)]
pub enum Divided {
    Another(Spot),
    Last(usize),
}

// The refusal of a word that is not wanted where it stands.
pub fn unwanted(word: Word) -> Refusal
    ensures { result ≡ unwanted word }
{
    match word {
        Word::Bad(place) => Refusal {
            reason: Reason::NoWord,
            place,
        },
        Word::Name(place, _) | Word::Number(place, _, _) | Word::Mark(_, place, _) => Refusal {
            reason: Reason::WrongOrder,
            place,
        },
    }
}

// A mark or a reserved word.
pub fn mark<K: Coded>(text: &[u8], at: usize, key: K) -> Result<Spot, Refusal>
    requires { at ≤ length text.now }
    ensures tells { Tells (λ (p n : ℕ). p) (mark_at text.now (K.code key) at) result }
    ensures past { IfOk result (Past (K.code key) (length text.now) at) }
{
    let word = words::word_at(text, at);
    let Word::Mark(b, place, next) = word else {
        return Err(unwanted(word));
    };
    if b != key.code() {
        return Err(unwanted(word));
    }
    Ok(Spot { next, place })
}

pub fn name(text: &[u8], at: usize) -> Result<Spot, Refusal>
    ensures tells { Tells (spelling text.now) (a_name text.now at) result }
    ensures named { IfOk result (Named (length text.now) at) }
{
    let word = words::word_at(text, at);
    let Word::Name(place, next) = word else {
        return Err(unwanted(word));
    };
    Ok(Spot { next, place })
}

// A mark or a reserved word, if it is there. Not `mark(..).ok()`, which would make a refusal to drop it: the promise is of the word alone.
pub fn optional<K: Coded>(text: &[u8], at: usize, key: K) -> Option<Spot>
    requires { at ≤ length text.now }
    ensures spots { Spots (K.code key) (word_at text.now at) result }
    ensures past { IfSome result (Past (K.code key) (length text.now) at) }
{
    let Word::Mark(b, place, next) = words::word_at(text, at) else {
        return None;
    };
    if b != key.code() {
        return None;
    }
    Some(Spot { next, place })
}

// The mark that joins factors, if it is there.
pub fn product(text: &[u8], at: usize) -> Option<Joint>
    requires { at ≤ length text.now }
    ensures joins { Joins is_product (word_at text.now at) result }
    ensures joined { IfSome result (Joined (length text.now) at) }
{
    let Spot { next, .. } = optional(text, at, Key::Times)?;
    Some(Joint { next, head: 6 })
}

// A mark that joins terms, if it is there.
pub fn sum(text: &[u8], at: usize) -> Option<Joint>
    requires { at ≤ length text.now }
    ensures joins { Joins is_sum (word_at text.now at) result }
    ensures joined { IfSome result (Joined (length text.now) at) }
{
    let Word::Mark(b, _, next) = words::word_at(text, at) else {
        return None;
    };
    if b == Key::Plus.code() {
        return Some(Joint { next, head: 2 });
    }
    if b == Key::Minus.code() {
        return Some(Joint { next, head: 4 });
    }
    None
}

// After an item of a list: the mark that divides or the mark that closes.
pub fn separator<K: Coded>(text: &[u8], at: usize, sep: K, close: K) -> Result<Divided, Refusal>
    requires { at ≤ length text.now }
    ensures value { result ≡ dividing (K.code sep) (K.code close) (word_at text.now at) }
    ensures parted { IfOk result (Parted (K.code sep) (K.code close) (length text.now) at) }
{
    let word = words::word_at(text, at);
    let Word::Mark(b, place, next) = word else {
        return Err(unwanted(word));
    };
    if b == sep.code() {
        return Ok(Divided::Another(Spot { next, place }));
    }
    if b == close.code() {
        return Ok(Divided::Last(next));
    }
    Err(unwanted(word))
}
