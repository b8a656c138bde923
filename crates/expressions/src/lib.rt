// Expressions: their factors as words on the tape. Expression, term and factor call each other; the remaining level allowance falls at
// every bracket and minus.
// Readers take the text, the tape and two places apart: of the places mostly one moves alone, and a struct that holds the tape would put its
// ghost name into every clause.
#![tactic(auto)]

ghost use Rattle.std.specs.Prelude.{◌≡◌, ◌+◌, ◌≤◌, ◌<◌, Bool, length};
ghost use Rattle.rules.specs.Grammar.{is_product, chain, expression_of, factor as factor_at, expression as expression_at, bounds as bounds_at};
ghost use Rattle.tape.specs.Layout.{flip, name_w};
ghost use Rattle.tape.specs.Encoding.{exp_w};
ghost use Rattle.tape.specs.Written.{Gives, none};
ghost use Rattle.marks.specs.Room.{Room, Spends};
ghost use Rattle.expressions.specs.Words.{Closes, bounds_w};

use marks::{Joint, Key, Spot};
use rules::{Reason, Refusal, Word};
use tape::{Kind, Read};

// The head of a factor after one more minus.
fn flipped(head: u32) -> u32
    requires { head < 8 }
    ensures { (result ≡ flip head) × (result < 8) }
{
    if head % 2 == 0 { head + 1 } else { head - 1 }
}

// The closing bracket of an expression whose words go from `to + 1` to `end`: the bracket's own word is stored last.
fn close(
    text: &[u8],
    tape: &mut [u32],
    at: usize,
    to: usize,
    end: usize,
    head: u32,
) -> Result<Read, Refusal>
    requires { (at ≤ length text.now) × (to < end) × (end ≤ length tape.old) × (end < to + 33554432) × (head < 8) }
    ensures { Closes text.now at tape.old to end head tape.new result }
{
    let Spot { next, .. } = marks::mark(text, at, Key::Close)?;
    tape::store(tape, to, Kind::Bracket, head, end - to - 1);
    Ok(Read {
        next,
        end,
        names: 0,
    })
}

// A factor, where `left` more levels may be opened. `head` says what stands before it, a number as its word has it (tape specs/Layout).
#[cycle(expression_factor_term)]
fn factor(
    text: &[u8],
    tape: &mut [u32],
    at: usize,
    to: usize,
    left: usize,
    head: u32,
) -> Result<Read, Refusal>
    requires { Room left text.now tape.old at to × (head < 8) }
    ensures gives { Gives none (exp_w name_w head) (factor_at text.now left at) tape.old to tape.new result }
    ensures spends { Spends 1 0 (length text.now) at to result }
{
    let word = words::word_at(text, at);
    match word {
        Word::Bad(_) => Err(marks::unwanted(word)),
        Word::Name(place, next) => {
            tape::store_name(tape, to, Kind::Name, head, place, next);
            Ok(Read {
                next,
                end: to + 1,
                names: 0,
            })
        }
        Word::Number(_, next, value) => {
            tape::store(tape, to, Kind::Number, head, value);
            Ok(Read {
                next,
                end: to + 1,
                names: 0,
            })
        }
        Word::Mark(b, place, next) => {
            if b == Key::Minus.code() {
                if left == 0 {
                    return Err(Refusal {
                        reason: Reason::TooMany,
                        place,
                    });
                }
                return factor(text, tape, next, to, left - 1, flipped(head));
            }
            if b == Key::Open.code() {
                if left == 0 {
                    return Err(Refusal {
                        reason: Reason::TooMany,
                        place,
                    });
                }
                let inner = expression(text, tape, next, to + 1, left - 1, 0)?;
                return close(text, tape, inner.next, to, inner.end, head);
            }
            Err(marks::unwanted(word))
        }
    }
}

// A term: factors joined by *.
#[cycle(expression_factor_term)]
fn term(
    text: &[u8],
    tape: &mut [u32],
    at: usize,
    to: usize,
    left: usize,
    head: u32,
) -> Result<Read, Refusal>
    requires { Room left text.now tape.old at to × (head < 8) }
    ensures gives { Gives none (exp_w name_w head) (chain text.now is_product (factor_at text.now left) at) tape.old to tape.new result }
    ensures spends { Spends 1 0 (length text.now) at to result }
{
    let mut read = factor(text, tape, at, to, left, head)?;
    while let Some(Joint { next, head }) = marks::product(text, read.next) {
        read = factor(text, tape, next, read.end, left, head)?;
    }
    Ok(read)
}

// An expression: terms joined by + or -. Its loop and a term's are two, as no function that is given its item can stand in their cycle.
#[cycle(expression_factor_term)]
fn expression(
    text: &[u8],
    tape: &mut [u32],
    at: usize,
    to: usize,
    left: usize,
    head: u32,
) -> Result<Read, Refusal>
    requires { Room left text.now tape.old at to × (head < 8) }
    ensures gives { Gives none (exp_w name_w head) (expression_of text.now (factor_at text.now left) at) tape.old to tape.new result }
    ensures spends { Spends 1 0 (length text.now) at to result }
{
    let mut read = term(text, tape, at, to, left, head)?;
    while let Some(Joint { next, head }) = marks::sum(text, read.next) {
        read = term(text, tape, next, read.end, left, head)?;
    }
    Ok(read)
}

// A whole expression, at level 1: 15 more may be opened.
pub fn value(text: &[u8], tape: &mut [u32], at: usize, to: usize) -> Result<Read, Refusal>
    requires { Room 15 text.now tape.old at to }
    ensures gives { Gives none (exp_w name_w 0) (expression_at text.now at) tape.old to tape.new result }
    ensures spends { Spends 1 0 (length text.now) at to result }
{
    expression(text, tape, at, to, 15, 0)
}

// Two bounds: a..b
pub fn bounds(text: &[u8], tape: &mut [u32], at: usize, to: usize) -> Result<Read, Refusal>
    requires { Room 15 text.now tape.old at to }
    ensures gives { Gives none bounds_w (bounds_at text.now at) tape.old to tape.new result }
    ensures spends { Spends 1 0 (length text.now) at to result }
{
    let first = value(text, tape, at, to)?;
    let dots = marks::mark(text, first.next, Key::Dots)?;
    value(text, tape, dots.next, first.end)
}
