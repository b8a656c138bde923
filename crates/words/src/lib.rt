// The word that stands at a place of a text (01, "Words and order of words").
#![tactic(auto)]

ghost use Rattle.std.specs.Prelude.{◌≡◌, Some, None, true, ℕ, List, map, ◌+◌, ◌<◌, ◌≤◌, length, eqb};
ghost use denote.Ref.{Bor};
ghost use Rattle.std.specs.List.{position, prefix_len, list_all};
ghost use Rattle.std.specs.Char.{is_ascii_digit};
ghost use Rattle.std.specs.Cmp.Lexicographic.{pointwise};
ghost use Rattle.rules.specs.Text.{bytes, pick, is_in, index_of};
ghost use Rattle.rules.specs.Words.{is_separator, is_digit, is_mark, in_word, reserved, all, value_of, spelled, begun, word_at};
ghost use Rattle.words.specs.Capitals.{capital};
ghost use Rattle.words.specs.Found.{place};
ghost use Rattle.words.specs.Onward.{Onward};

use rules::Word;

const RESERVED: [&[u8]; 14] = [
    b"BLOCK",
    b"VAR",
    b"BEGIN",
    b"END",
    b"GENERATE",
    b"FOR",
    b"IF",
    b"THEN",
    b"WIRE",
    b"VECTOR",
    b"OF",
    b"NUM",
    b"BESIDE",
    b"BELOW",
];

// Letters, digits and the underscore; and the marks of one byte: tables, since every byte of a text is asked.
const IN_WORD: [bool; 256] = [
    false, false, false, false, false, false, false, false, false, false, false, false, false,
    false, false, false, false, false, false, false, false, false, false, false, false, false,
    false, false, false, false, false, false, false, false, false, false, false, false, false,
    false, false, false, false, false, false, false, false, false, true, true, true, true, true,
    true, true, true, true, true, false, false, false, false, false, false, false, true, true,
    true, true, true, true, true, true, true, true, true, true, true, true, true, true, true, true,
    true, true, true, true, true, true, true, true, false, false, false, false, true, false, true,
    true, true, true, true, true, true, true, true, true, true, true, true, true, true, true, true,
    true, true, true, true, true, true, true, true, true, false, false, false, false, false, false,
    false, false, false, false, false, false, false, false, false, false, false, false, false,
    false, false, false, false, false, false, false, false, false, false, false, false, false,
    false, false, false, false, false, false, false, false, false, false, false, false, false,
    false, false, false, false, false, false, false, false, false, false, false, false, false,
    false, false, false, false, false, false, false, false, false, false, false, false, false,
    false, false, false, false, false, false, false, false, false, false, false, false, false,
    false, false, false, false, false, false, false, false, false, false, false, false, false,
    false, false, false, false, false, false, false, false, false, false, false, false, false,
    false, false, false, false, false, false, false, false, false, false, false, false, false,
    false, false, false, false, false, false, false, false, false, false,
];

const IS_MARK: [bool; 256] = [
    false, false, false, false, false, false, false, false, false, false, false, false, false,
    false, false, false, false, false, false, false, false, false, false, false, false, false,
    false, false, false, false, false, false, false, false, false, false, false, false, false,
    false, true, true, true, true, true, true, false, false, false, false, false, false, false,
    false, false, false, false, false, true, true, false, true, false, false, false, false, false,
    false, false, false, false, false, false, false, false, false, false, false, false, false,
    false, false, false, false, false, false, false, false, false, false, false, true, false, true,
    false, false, false, false, false, false, false, false, false, false, false, false, false,
    false, false, false, false, false, false, false, false, false, false, false, false, false,
    false, false, false, false, false, false, false, false, false, false, false, false, false,
    false, false, false, false, false, false, false, false, false, false, false, false, false,
    false, false, false, false, false, false, false, false, false, false, false, false, false,
    false, false, false, false, false, false, false, false, false, false, false, false, false,
    false, false, false, false, false, false, false, false, false, false, false, false, false,
    false, false, false, false, false, false, false, false, false, false, false, false, false,
    false, false, false, false, false, false, false, false, false, false, false, false, false,
    false, false, false, false, false, false, false, false, false, false, false, false, false,
    false, false, false, false, false, false, false, false, false, false, false, false, false,
    false, false, false, false, false, false, false, false, false, false, false, false, false,
    false, false, false, false, false, false,
];

fn is_separator(b: u8) -> bool
    ensures { result ≡ is_separator b }
{
    // Most bytes are above them all.
    b <= b' ' && matches!(b, b' ' | b'\t' | b'\r' | b'\n')
}

fn in_word(b: u8) -> bool
    ensures { result ≡ in_word b }
{
    IN_WORD[usize::from(b)]
}

// A mark of one byte.
fn is_mark(b: u8) -> bool
    ensures { result ≡ is_mark b }
{
    IS_MARK[usize::from(b)]
}

// How many separators a text begins with.
fn separators(text: &[u8]) -> usize
    ensures { result ≡ prefix_len is_separator text.now }
{
    text.iter().take_while(|b| is_separator(**b)).count()
}

// How long the word is with which a text begins.
fn letters(text: &[u8]) -> usize
    ensures { result ≡ prefix_len in_word text.now }
{
    text.iter().take_while(|b| in_word(**b)).count()
}

// Which of the words it is, counted from 0.
#[tactic(auto, unfolding(crate::specs::Found::place))]
fn place(words: &[&[u8]], word: &[u8]) -> Option<usize>
    ensures { result ≡ place word.now words.now }
{
    words.iter().position(|w| word == *w)
}

// Whether it can be a reserved word: each has two letters or more, and begins with a capital.
#[tactic(auto, unfolding(crate::specs::Capitals::capital))]
fn is_capital(word: &[u8]) -> bool
    ensures { result ≡ capital word.now }
{
    word.len() > 1 && word[0].is_ascii_uppercase()
}

// Which reserved word it is, counted from 0. Most words of a text are none by their first letter, and are not looked for among the fourteen.
#[tactic(auto, using(crate::proofs::Library::place_is, crate::proofs::Capitals::no_capital))]
fn reserved(word: &[u8]) -> Option<usize>
    ensures { result ≡ pick (is_in word.now (map bytes reserved)) (Some (index_of word.now (map bytes reserved))) None }
{
    if !is_capital(word) {
        return None;
    }
    place(&RESERVED, word)
}

fn all_digits(word: &[u8]) -> bool
    ensures { result ≡ list_all is_ascii_digit word.now }
{
    word.iter().all(|b| b.is_ascii_digit())
}

// The number that digits say.
fn value(digits: &[u8]) -> usize
    requires { (length digits.now ≤ 6) × (all is_digit digits.now ≡ true) }
    ensures { result ≡ value_of 0 digits.now }
{
    let mut v = 0;
    for b in digits {
        v = v * 10 + usize::from(b - b'0');
    }
    v
}

// The word from `p` to `end` by its letters.
#[tactic(auto, using(crate::proofs::Digits::digits_are), unfolding(rules::specs::Words::spelled, rules::specs::Text::pick))]
fn spell(word: &[u8], p: usize, end: usize) -> Word
    requires { 0 < length word.now }
    ensures { result ≡ spelled p end word.now }
{
    if let Some(k) = reserved(word) {
        return Word::Mark(k + 1, p, end);
    }
    if all_digits(word) && word.len() <= 6 {
        return Word::Number(p, end, value(word));
    }
    if word[0].is_ascii_alphabetic() && word.len() <= 16 {
        return Word::Name(p, end);
    }
    Word::Bad(p)
}

// The word that begins at `p`.
#[tactic(auto, using(crate::proofs::Beginnings::beginnings))]
fn begun(text: &[u8], p: usize) -> Word
    requires { p < length text.now }
    ensures { result ≡ begun text.now p }
{
    let b = text[p];
    if is_mark(b) {
        return Word::Mark(usize::from(b), p, p + 1);
    }
    if in_word(b) {
        let end = p + letters(&text[p..]);
        return spell(&text[p..end], p, end);
    }
    if text[p..].starts_with(b"..") {
        return Word::Mark(usize::from(b), p, p + 2);
    }
    Word::Bad(p)
}

// The first word at or after `at`; at the end of the text, the end.
#[tactic(auto, using(crate::proofs::Beginnings::places))]
pub fn word_at(text: &[u8], at: usize) -> Word
    ensures value { result ≡ word_at text.now at }
    ensures onward { Onward (length text.now) at result }
{
    let start = at.min(text.len());
    let p = start + separators(&text[start..]);
    if p < text.len() {
        return begun(text, p);
    }
    Word::Mark(0, text.len(), text.len())
}
