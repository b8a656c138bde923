// The values of expressions that lie on the tape. A value is an i32, worked out as an i64: no sum, difference or product of two such
// numbers leaves an i64, and in proofs both are the rules' own integers.
// `(tape, at, end)` stay parameters: `at` and `end` differ from call to call, so a struct would be built anew for each.
#![tactic(auto)]

ghost use Rattle.std.specs.Prelude.{◌≡◌, ℕ, ◌+◌, ◌*◌, ◌-◌, ◌<◌, ◌≤◌, length, get_or, ◌-ℤ◌, Some, None, IfSome};
ghost use Rattle.rules.specs.Syntax.{Exp, Sort};
ghost use Rattle.rules.specs.Values.{eval, generics, shape};
ghost use Rattle.tape.specs.Layout.{kind_of, head_in, value_of};
ghost use Rattle.tape.specs.Encoding.{exp_w, sort_w};
ghost use Rattle.tape.specs.Resolved.{slot_w};
ghost use Rattle.values.specs.Numbers.{clipped, negation, joined, value};
ghost use Rattle.values.specs.Factors.{Factor, total, signed, mark_in, step, nothing};
ghost use Rattle.values.specs.Here.{goes_on, Here, Written, Says, HereFactor, WrittenFactor, number_in};
ghost use Rattle.values.specs.Taking.{after_of, plain_of};
ghost use Rattle.values.specs.Pairs.{HereTwo, WrittenTwo, SaysTwo};
ghost use Rattle.values.specs.Loops.{Turns};
ghost use Rattle.values.specs.Sizes.{HereSort, WrittenSort, Sizes, size_of, apart_of};

use rules::Reason;
use tape::Kind;

// What stands before a term or factor.
#[derive(Clone, Copy, PartialEq, Eq, Debug)]
pub enum Mark {
    // Nothing: it is the first.
    First,
    Plus,
    Minus,
    Times,
}

// What is in hand between two factors: the terms before the last, the mark before the last, and the last so far. A number that lies out of
// range is none.
#[derive(Clone, Copy, PartialEq, Eq, Debug)]
pub struct Sum {
    pub sum: Option<i32>,
    pub mark: Mark,
    pub term: Option<i32>,
}

// What an expression on the tape comes to, and the place after its words.
#[derive(Clone, Copy, PartialEq, Eq, Debug)]
pub struct Valued {
    pub value: i32,
    pub next: usize,
}

// What two expressions, one after the other, come to, and the place after their words.
#[derive(Clone, Copy, PartialEq, Eq, Debug)]
pub struct Bounds {
    pub first: i32,
    pub last: i32,
    pub next: usize,
}

// What a type comes to: its lowest index, how many wires it has, and the place after its words.
#[derive(Clone, Copy, PartialEq, Eq, Debug)]
pub struct Size {
    pub low: i32,
    pub wires: usize,
    pub next: usize,
}

// A loop's first index, how many rounds it has, and the place after the words of its bounds.
#[derive(Clone, Copy, PartialEq, Eq, Debug)]
pub struct Rounds {
    pub first: i32,
    pub count: usize,
    pub next: usize,
}

const MOST: usize = 256;

const LIMIT: i64 = 1000000;

// A number, where it is in range.
#[tactic(auto, using(crate::proofs::Signs::clip_below, crate::proofs::Signs::clip_above, crate::proofs::Signs::clip_fits, crate::proofs::Signs::clip_within))]
pub fn clip(z: i64) -> Option<i32>
    ensures { result ≡ clipped z }
{
    if z < -LIMIT || LIMIT < z {
        return None;
    }
    // Proved to fit: `try_from` would want an arm that never runs.
    Some(z as i32)
}

#[tactic(auto, unfolding(crate::specs::Numbers::negation))]
fn negate(v: Option<i32>) -> Option<i32>
    ensures { result ≡ negation v }
{
    clip(-i64::from(v?))
}

// Two numbers joined by a mark; by none, the second alone.
#[tactic(auto, unfolding(crate::specs::Numbers::joined, crate::specs::Numbers::join))]
fn join(mark: Mark, v: Option<i32>, w: Option<i32>) -> Option<i32>
    ensures { result ≡ joined mark v w }
{
    let x = i64::from(v?);
    let y = i64::from(w?);
    // No `match`: most sums have one term, and this is asked before all else.
    if mark == Mark::First {
        return w;
    }
    if mark == Mark::Plus {
        return clip(x + y);
    }
    if mark == Mark::Minus {
        return clip(x - y);
    }
    clip(x * y)
}

// The mark in a factor's head.
fn mark_in(head: u32) -> Mark
    ensures { result ≡ mark_in head }
{
    match head / 2 {
        0 => Mark::First,
        1 => Mark::Plus,
        2 => Mark::Minus,
        _ => Mark::Times,
    }
}

// A factor's number, by the minuses before it.
#[tactic(auto, unfolding(crate::specs::Factors::signed, rules::specs::Text::pick))]
fn sign(head: u32, v: Option<i32>) -> Option<i32>
    ensures { result ≡ signed head v }
{
    if head % 2 == 0 { v } else { negate(v) }
}

impl Sum {
    #[tactic(auto, unfolding(crate::specs::Factors::nothing))]
    fn empty() -> Sum
        ensures { result ≡ nothing }
    {
        Sum {
            sum: Some(0),
            mark: Mark::First,
            term: Some(0),
        }
    }

    // The sum with its last term.
    #[tactic(auto, unfolding(crate::specs::Factors::total))]
    fn total(self) -> Option<i32>
        ensures { result ≡ total self }
    {
        join(self.mark, self.sum, self.term)
    }

    // One more factor: a * goes on with the term, any other mark begins one.
    #[tactic(auto, unfolding(crate::specs::Factors::step, crate::specs::Factors::taken))]
    fn take(self, head: u32, v: Option<i32>) -> Sum
        ensures { result ≡ step head v self }
    {
        let factor = sign(head, v);
        let mark = mark_in(head);
        if mark == Mark::Times {
            let term = join(Mark::Times, self.term, factor);
            return Sum { term, ..self };
        }
        Sum {
            sum: self.total(),
            mark,
            term: factor,
        }
    }
}

// The number of a factor that is one word: a name's value, or a number.
#[tactic(auto, unfolding(crate::specs::Taking::plain_of, rules::specs::Text::pick))]
fn plain(values: &[i32; 48], word: u32) -> Option<i32>
    requires { kind_of word ≡ 1 → value_of word < 48 }
    ensures { result ≡ plain_of values.now word }
{
    let v = tape::value_of(word);
    if tape::is(word, Kind::Name) {
        return clip(i64::from(values[v]));
    }
    // Proved to fit: `try_from` would want an arm that never runs.
    clip(v as i64)
}

// The place after the factor at i.
#[tactic(auto, unfolding(crate::specs::Taking::after_of, rules::specs::Text::pick))]
fn after(tape: &[u32], i: usize) -> usize
    requires { (i < length tape.now) × (i < 33554432) }
    ensures { result ≡ after_of tape.now i }
{
    let word = tape[i];
    if tape::is(word, Kind::Bracket) {
        return i + 1 + tape::value_of(word);
    }
    i + 1
}

// Whether the word at i is a factor that goes on with an expression.
#[tactic(auto, unfolding(crate::specs::Here::goes_on))]
fn goes_on(tape: &[u32], i: usize, end: usize) -> bool
    requires { end ≤ length tape.now }
    ensures { result ≡ goes_on tape.now i end }
{
    i < end && tape::kind_of(tape[i]) <= Kind::Bracket.code() && tape::head_of(tape[i]) >= 2
}

// The number of the factor at i, whose words end at next.
#[cycle(eval_factor)]
fn factor(tape: &[u32], values: &[i32; 48], i: usize, next: usize) -> Option<i32>
    requires { WrittenFactor tape.now i next }
    ensures { (f : Factor) → HereFactor tape.now i next f → result ≡ value (generics values.now) f.base }
{
    let word = tape[i];
    if tape::is(word, Kind::Bracket) {
        return eval(tape, values, i + 1, next).map(|inner| inner.value);
    }
    plain(values, word)
}

// The value of the expression whose words begin at `at`; nothing that goes on with it stands after it, up to `end`. None where a part of
// it lies out of range.
#[cycle(eval_factor)]
pub fn eval(tape: &[u32], values: &[i32; 48], at: usize, end: usize) -> Option<Valued>
    requires { Written tape.now at end }
    ensures { (e : Exp ℕ) → Here tape.now at end e → Says (eval (generics values.now) e) (at + length (exp_w slot_w 0 e)) result }
{
    let mut sum = Sum::empty();
    let mut i = at;
    // No range: how many words a factor has stands in its first one.
    loop {
        let next = after(tape, i);
        let v = factor(tape, values, i, next);
        let head = tape::head_of(tape[i]);
        sum = sum.take(head, v);
        i = next;
        if !goes_on(tape, i, end) {
            let value = sum.total()?;
            return Some(Valued { value, next });
        }
    }
}

// How far x lies above y, if it does not lie below.
pub fn above(x: i32, y: i32) -> Option<usize>
    ensures apart { result ≡ apart_of (x -ℤ y) }
    ensures short { IfSome result (λ k. k < 4294967296) }
{
    usize::try_from(i64::from(x) - i64::from(y)).ok()
}

// The values of two expressions, one after the other, whose words begin at `at`.
fn both_bounds(tape: &[u32], values: &[i32; 48], at: usize, end: usize) -> Option<Bounds>
    requires { WrittenTwo tape.now at end }
    ensures { (a b : Exp ℕ) → HereTwo tape.now at end a b
        → SaysTwo (generics values.now) a b (at + length (exp_w slot_w 0 a) + length (exp_w slot_w 0 b)) result }
{
    let first = eval(tape, values, at, end)?;
    let last = eval(tape, values, first.next, end)?;
    Some(Bounds {
        first: first.value,
        last: last.value,
        next: last.next,
    })
}

// The size of a vector from its bounds; its words end at next.
fn sized(bounds: Bounds) -> Result<Size, Reason>
    ensures { Sizes (size_of bounds.first bounds.last) bounds.next result }
{
    let more = above(bounds.first, bounds.last).ok_or(Reason::WrongVector)?;
    if more >= MOST {
        return Err(Reason::WrongVector);
    }
    Ok(Size {
        low: bounds.last,
        wires: more + 1,
        next: bounds.next,
    })
}

// The size of the type of the declaration at `at`: first bound, second bound, then a vector that is wrong.
pub fn measure(tape: &[u32], values: &[i32; 48], at: usize, end: usize) -> Result<Size, Reason>
    requires { WrittenSort tape.now at end }
    ensures { (k v : ℕ) (s : Sort ℕ) → HereSort tape.now at end k v s → Sizes (shape (generics values.now) s) (at + length (sort_w slot_w k v s)) result }
{
    let head = tape::head_of(tape[at]);
    let next = at + 1;
    // A head is a number of the tape's layout: 0 one wire, 2 a number, else a vector.
    match head {
        0 => Ok(Size {
            low: 0,
            wires: 1,
            next,
        }),
        2 => Ok(Size {
            low: 0,
            wires: 0,
            next,
        }),
        _ => sized(both_bounds(tape, values, next, end).ok_or(Reason::OutOfRange)?),
    }
}

// The rounds of a loop whose bounds' words begin at `at`: they are worked out once.
pub fn span(tape: &[u32], values: &[i32; 48], at: usize, end: usize) -> Result<Rounds, Reason>
    requires { WrittenTwo tape.now at end }
    ensures { (a b : Exp ℕ) → HereTwo tape.now at end a b
        → Turns (generics values.now) a b (at + length (exp_w slot_w 0 a) + length (exp_w slot_w 0 b)) result }
{
    let Bounds { first, last, next } = both_bounds(tape, values, at, end).ok_or(
        Reason::OutOfRange,
    )?;
    let count = above(last, first).map_or(0, |more| more + 1);
    Ok(Rounds { first, count, next })
}
