// What the names of one use of a block stand for: wires, and values.
// `(tape, at, end)` stay parameters: `at` differs from call to call, so a struct would be built anew for each.
// The walks count `filled` by hand: how many places are filled is part of the answer.
#![tactic(auto)]

ghost use Rattle.std.specs.Prelude.{◌≡◌, ℕ, ◌+◌, ◌*◌, ◌-◌, ◌<◌, ◌≤◌, List, ◌++◌, length, get_or, set, replicate, pos};
ghost use Rattle.rules.specs.Syntax.{Exp, Arg, Decl};
ghost use Rattle.rules.specs.Values.{Env, evals, bound};
ghost use Rattle.rules.specs.Frames.{Frame as Names, resolve, resolves};
ghost use Rattle.rules.specs.Unfold.{Range, Wires, State, declare};
ghost use Rattle.tape.specs.Encoding.{arg_w, list_w};
ghost use Rattle.tape.specs.Resolved.{slot_w};
ghost use Rattle.frames.specs.Stands.{Stands, Knows, no_vector, low_of, bases, lens, lows};
ghost use Rattle.frames.specs.Ports.{Port, port_w, HerePorts, WrittenPorts, Offered, tie_all};
ghost use Rattle.frames.specs.Rows.{among_of};
ghost use Rattle.frames.specs.Lists.{value_w, HereValues, WrittenValues, Gathers, tagged_w, tagged, HereArgs, WrittenArgs, Resolves};
ghost use Rattle.frames.specs.Args.{HereArg, WrittenArg, Finds, Fits};
ghost use Rattle.frames.specs.Fresh.{Filled, Declares, name_words, HereDecls, WrittenDecls};

use rules::{Reason, Refusal};
use tape::{Coded, Kind};

// A name's wires: the lowest, how many they are, and the index of the lowest.
#[derive(Clone, Copy, PartialEq, Eq, Debug)]
pub struct Vector {
    pub base: u16,
    pub len: u16,
    pub low: i32,
}

// The wires of each name; the value of each generic and of each loop's index. Arrays of a fixed size: the project uses no heap.
#[derive(Clone, Copy)]
pub struct Frame {
    pub names: [Vector; 48],
    pub values: [i32; 48],
}

// The wires of an argument, lowest first, how many they are, and the place after its words.
#[derive(Clone, Copy, PartialEq, Eq, Debug)]
pub struct Found {
    pub base: u16,
    pub len: u16,
    pub next: usize,
}

// How many places are filled, and the place after the words of all that was read.
#[derive(Clone, Copy, PartialEq, Eq, Debug)]
pub struct Many {
    pub filled: usize,
    pub next: usize,
}

// How many places are filled, the next wire, and the place after the words of all that was read.
#[derive(Clone, Copy, PartialEq, Eq, Debug)]
pub struct Fresh {
    pub filled: usize,
    pub wires: usize,
    pub next: usize,
}

const WIRES: usize = 1536;

impl Frame {
    // Nothing has wires yet, and every value is 0.
    pub fn empty() -> Frame
        ensures { result ≡ record { names = replicate 48 no_vector; values = replicate 48 (pos 0) } }
    {
        let none = Vector {
            base: 0,
            len: 0,
            low: 0,
        };
        Frame {
            names: [none; 48],
            values: [0; 48],
        }
    }

    // The same frame, where the index i has the value v.
    pub fn with_index(&self, i: usize, v: i32) -> Frame
        requires { i < 48 }
        ensures { (ρ : Env) (σ : Names Range) → Stands self.now ρ σ → Stands result (bound ρ i v) σ }
    {
        let mut frame = *self;
        frame.values[i] = v;
        frame
    }
}

// The wires of the argument at `at`: its subscript's value, then whether it lies in its vector.
fn argument(tape: &[u32], frame: &Frame, at: usize, end: usize) -> Result<Found, Reason>
    requires { WrittenArg tape.now at end frame.now }
    ensures finds { (ρ : Env) (σ : Names Range) (kind : ℕ) (a : Arg ℕ) → Stands frame.now ρ σ → HereArg tape.now at end kind (length σ) a
        → Finds (resolve Wires ρ σ a) (at + length (arg_w slot_w kind a)) result }
    ensures fits { Fits result }
{
    let word = tape[at];
    let Vector { base, len, low } = frame.names[tape::value_of(word)];
    // A head is a number of the tape's layout: 0 where no subscript follows.
    if tape::head_of(word) == 0 {
        return Ok(Found {
            base,
            len,
            next: at + 1,
        });
    }
    let subscript = values::eval(tape, &frame.values, at + 1, end).ok_or(Reason::OutOfRange)?;
    let i = values::above(subscript.value, low).ok_or(Reason::OutsideVector)?;
    if i >= usize::from(len) {
        return Err(Reason::OutsideVector);
    }
    // Proved to fit: `try_from` would want an arm that never runs.
    Ok(Found {
        base: base + i as u16,
        len: 1,
        next: subscript.next,
    })
}

// Whether the word at i, before `end`, has a kind from lo to hi.
#[tactic(auto, unfolding(crate::specs::Rows::among_of))]
pub fn among<K: Coded>(tape: &[u32], i: usize, end: usize, lo: K, hi: K) -> bool
    requires { end ≤ length tape.now }
    ensures { result ≡ among_of tape.now i end (K.code lo) (K.code hi) }
{
    i < end && lo.code() <= tape::kind_of(tape[i]) && tape::kind_of(tape[i]) <= hi.code()
}

// The values of the generics given from `at` on. A resolved call never gives more than there are places; what would lie past them is not kept.
pub fn evaluate(
    tape: &[u32],
    values: &[i32; 48],
    at: usize,
    end: usize,
    into: &mut [i32; 48],
) -> Result<Many, Reason>
    requires written_values { WrittenValues tape.now at end }
    requires into_len { length into.old ≡ 48 }
    ensures { (ρ : Env) (es : List (Exp ℕ)) → Knows values.now ρ → HereValues tape.now at end es
        → Gathers (λ v. v) (evals ρ es) (at + length (list_w value_w es)) 0 into.old result into.new }
{
    let mut next = at;
    let mut filled: usize = 0;
    // No range: how many words a value has is known when it is read.
    while among(tape, next, end, Kind::Number, Kind::Bracket) {
        let given = values::eval(tape, values, next, end).ok_or(Reason::OutOfRange)?;
        tape::keep(into, filled, given.value);
        filled += 1;
        next = given.next;
    }
    Ok(Many { filled, next })
}

// The wires found, at place i; the low that stands there stays, and past the last place nothing is kept.
fn put(names: &mut [Vector; 48], i: usize, found: Found)
    requires { length names.old ≡ 48 }
    ensures { names.new ≡ set names.old i (record { base = found.base; len = found.len; low = (get_or names.old i no_vector).low }) }
{
    if i < 48 {
        names[i] = Vector {
            base: found.base,
            len: found.len,
            ..names[i]
        };
    }
}

// The wires of the arguments from `at` on, inputs and then outputs, stored from place `to` on.
pub fn arguments(
    tape: &[u32],
    frame: &Frame,
    at: usize,
    end: usize,
    to: usize,
    names: &mut [Vector; 48],
) -> Result<Many, Reason>
    requires written_args { WrittenArgs tape.now at end frame.now }
    requires names_len { (length names.old ≡ 48) × (to ≤ 48) }
    ensures resolves { (ρ : Env) (σ : Names Range) (ins outs : List (Arg ℕ)) → Stands frame.now ρ σ → HereArgs tape.now at end (length σ) ins outs
        → Resolves (resolves Wires ρ σ (ins ++ outs)) (at + length (list_w tagged_w (tagged ins outs))) to (bases names.old) (lens names.old) result (bases names.new) (lens names.new) }
    ensures lows_unchanged { lows names.new ≡ lows names.old }
{
    let mut next = at;
    let mut filled = to;
    // No range: how many words an argument has is known when it is read.
    while among(tape, next, end, Kind::Input, Kind::Output) {
        let found = argument(tape, frame, next, end)?;
        put(names, filled, found);
        filled += 1;
        next = found.next;
    }
    Ok(Many { filled, next })
}

// The ports from `at` on, tied lowest to lowest to the wires given from place `to` on: bounds, a wrong vector, then unequal lengths. Their
// lowest indices are stored.
pub fn tie(
    tape: &[u32],
    values: &[i32; 48],
    at: usize,
    end: usize,
    to: usize,
    names: &mut [Vector; 48],
) -> Result<Many, Reason>
    requires { WrittenPorts tape.now at end to (lens names.old) }
    ensures gathers { (ρ : Env) (xs : List Port) → Knows values.now ρ → HerePorts tape.now at end xs → Offered to (lens names.old) xs
        → Gathers low_of (tie_all ρ xs) (at + length (list_w port_w xs)) to (lows names.old) result (lows names.new) }
    ensures ends_unchanged { (bases names.new ≡ bases names.old) × (lens names.new ≡ lens names.old) }
{
    let mut next = at;
    let mut filled = to;
    // No range: how many words a port has is known when it is read.
    while among(tape, next, end, Kind::In, Kind::Out) {
        let size = values::measure(tape, values, next, end)?;
        let given = names[filled];
        if usize::from(given.len) != size.wires {
            return Err(Reason::UnequalVectors);
        }
        names[filled] = Vector {
            low: size.low,
            ..given
        };
        filled += 1;
        next = size.next;
    }
    Ok(Many { filled, next })
}

// The names declared by words of a kind, each with fresh wires, after what `from` has: bounds, a wrong vector, then too many wires.
pub fn declare<K: Coded>(
    tape: &[u32],
    values: &[i32; 48],
    from: Fresh,
    end: usize,
    kind: K,
    names: &mut [Vector; 48],
) -> Result<Fresh, Refusal>
    requires written_decls { WrittenDecls tape.now from.next end (K.code kind) from.filled names.old }
    requires from_bound { (from.filled ≤ 48) × (from.wires ≤ 1536) }
    ensures { (ρ : Env) (ds : List (Decl ℕ)) (σ : Names Range) (s : State) → Knows values.now ρ → HereDecls tape.now from.next end (K.code kind) ds
        → Filled σ from.filled names.old → s.next ≡ from.wires
        → Declares (declare ρ ds σ s) s (from.next + length (list_w (name_words (K.code kind)) ds)) result names.new }
{
    let mut next = from.next;
    let mut filled = from.filled;
    let mut wires = from.wires;
    // No range: how many words a declaration has is known when it is read.
    while among(tape, next, end, kind, kind) {
        let place = tape::value_of(tape[next]) / 32;
        let size = values::measure(tape, values, next, end).map_err(|reason| Refusal {
            reason,
            place,
        })?;
        if size.wires > WIRES - wires {
            return Err(Refusal {
                reason: Reason::TooManyWires,
                place,
            });
        }
        // Proved to fit: `try_from` would want an arm that never runs.
        let vector = Vector {
            base: wires as u16,
            len: size.wires as u16,
            low: size.low,
        };
        tape::keep(names, filled, vector);
        filled += 1;
        wires += size.wires;
        next = size.next;
    }
    Ok(Fresh {
        filled,
        wires,
        next,
    })
}
