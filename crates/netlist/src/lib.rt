// The words of a netlist, when they are well formed, and how a wire is numbered.
#![tactic(auto)]

ghost use Rattle.std.specs.Prelude.{◌≡◌, ◌↔◌, IsTrue, ◌+◌, ◌<◌, get_or, IfOk, IfErr};
ghost use Rattle.rules.specs.Flat.{decimal};
ghost use Rattle.rules.specs.Netlist.{inputs, outputs, wires, gates, gate_at, Slot, Fine, WellFormed};
ghost use Rattle.netlist.specs.Judged.{Judged};
ghost use Rattle.netlist.specs.Parts.{Head, Body};

use rules::{Gate, Reason};
use std::marker::Model;

// The word at a place; past the end it reads as 0, so that any words may be given.
pub fn word(words: &[u16], at: usize) -> u16
    ensures { result ≡ get_or words.now at 0 }
{
    words.get(at).copied().unwrap_or(0)
}

// The record of gate i.
pub fn gate_at(words: &[u16], i: u16) -> Gate
    ensures { result ≡ gate_at words.now i }
{
    let at = 4 + 5 * usize::from(i);
    Gate {
        kind: word(words, at),
        a: word(words, at + 1),
        b: word(words, at + 2),
        c: word(words, at + 3),
        out: word(words, at + 4),
    }
}

// The digits of a number: up to four bytes, in a fixed array, as this project has no heap. A clause sees their list.
#[derive(Clone, Copy)]
pub struct Digits {
    bytes: [u8; 4],
    count: usize,
}

impl Model for Digits {
    ghost use Rattle.std.specs.Prelude.{◌≡◌, ℕ, List, ◌-◌, ◌≤◌, ◌++◌, length, take, drop, replicate};
    ghost use Rattle.netlist.specs.Digits.{filled, counted};

    ghost Value = { List ℕ };

    ghost view = { λ d. take d.count d.bytes };

    // Zeros stand behind the digits, so that these say all.
    ghost invariant = { λ d. (d.count ≤ 4) × (length d.bytes ≡ 4) × (drop d.count d.bytes ≡ replicate (4 - d.count) 0) };

    ghost inverse = { λ ds. record { bytes = ds ++ replicate (4 - length ds) 0; count = length ds } };

    ghost inverse_ok = { λ d h i. record { bytes = filled d.count d.bytes h.0 h.1 h.2 i; count = counted d.count d.bytes h.0 h.1 i } };
}

impl Digits {
    pub fn as_slice(&self) -> &[u8]
        ensures { result.now ≡ self.now }
    {
        &self.bytes[..self.count]
    }
}

// A digit as its byte. `as` is proved to fit: `try_from` would want an arm that never runs.
fn digit(n: u16) -> u8
    requires { n < 100 }
    ensures { result ≡ 48 + n }
{
    b'0' + n as u8
}

// The number of a wire in decimal, with no zero before it: four digits are enough for 1,536 wires.
// By hand, since the rules give any number at most four digits, and the library gives five from 10,000 on.
#[tactic(auto, using(crate::proofs::Laws::digits))]
pub fn decimal_of(n: u16) -> Digits
    ensures { result ≡ decimal n }
{
    if n < 10 {
        let bytes = [digit(n), 0, 0, 0];
        return Digits { bytes, count: 1 };
    }
    if n < 100 {
        let bytes = [digit(n / 10), digit(n % 10), 0, 0];
        return Digits { bytes, count: 2 };
    }
    if n < 1000 {
        let bytes = [digit(n / 100), digit(n / 10 % 10), digit(n % 10), 0];
        return Digits { bytes, count: 3 };
    }
    let bytes = [
        digit(n / 1000),
        digit(n / 100 % 10),
        digit(n / 10 % 10),
        digit(n % 10),
    ];
    Digits { bytes, count: 4 }
}

// Slot k of a gate with n inputs holds a wire where the kind uses it, else 65,535: no Option, as this is what the rules lay in the word (`Slot`).
fn slot(n: usize, wires: u16, k: usize, x: u16) -> bool
    ensures { IsTrue result ↔ Slot n wires k x }
{
    if k < n { x < wires } else { x == 65535 }
}

// One gate by itself.
fn fine(wires: u16, inputs: u16, g: Gate) -> bool
    ensures { IsTrue result ↔ Fine wires inputs g }
{
    let n = Gate::inputs(g.kind);
    g.kind <= Gate::ONE
        && slot(n, wires, 0, g.a)
        && slot(n, wires, 1, g.b)
        && slot(n, wires, 2, g.c)
        && g.out < wires
        && g.out >= inputs
}

// The table of contents, and that the slice holds all records.
fn head(words: &[u16]) -> bool
    ensures { IsTrue result ↔ Head words.now }
{
    let inputs = usize::from(word(words, 0));
    let outputs = usize::from(word(words, 1));
    let wires = usize::from(word(words, 2));
    let gates = usize::from(word(words, 3));
    words.len() >= 4
        && inputs + outputs <= wires
        && wires <= 1536
        && gates <= 1024
        && words.len() >= 4 + 5 * gates
}

// The records, with one mark for each wire that is driven.
fn body(words: &[u16]) -> bool
    requires { Head words.now }
    ensures { IsTrue result ↔ Body words.now }
{
    let inputs = word(words, 0);
    let wires = word(words, 2);
    let mut marks = [false; 1536];
    for i in 0..word(words, 3) {
        let g = gate_at(words, i);
        let o = usize::from(g.out);
        if !fine(wires, inputs, g) || marks[o] {
            return false;
        }
        marks[o] = true;
    }
    true
}

// Whether the words are a well-formed netlist.
pub fn well_formed(words: &[u16]) -> bool
    ensures { Judged words.now result }
{
    head(words) && body(words)
}

// Words that are a well-formed netlist.
#[derive(Clone, Copy)]
pub struct Netlist<'a> {
    pub words: &'a [u16],
    ghost well_formed: { WellFormed words.now },
}

impl<'a> Netlist<'a> {
    pub fn new(words: &'a [u16]) -> Result<Netlist<'a>, Reason>
        ensures made { IfOk result (λ n. n.words.now ≡ words.now) }
        ensures refused { IfErr result (λ e. (e ≡ Reason.NotWellFormed) × (WellFormed words.now → ⊥)) }
    {
        if well_formed(words) {
            Ok(Netlist { words })
        } else {
            Err(Reason::NotWellFormed)
        }
    }

    // One getter for each word of the table of contents, as the rules have a definition for each.

    // How many wires are inputs, the first ones.
    pub fn inputs(self) -> u16
        ensures { result ≡ inputs self.entry.words.now }
    {
        word(self.words, 0)
    }

    // How many are outputs, the next ones.
    pub fn outputs(self) -> u16
        ensures { result ≡ outputs self.entry.words.now }
    {
        word(self.words, 1)
    }

    pub fn wires(self) -> u16
        ensures { result ≡ wires self.entry.words.now }
    {
        word(self.words, 2)
    }

    pub fn gates(self) -> u16
        ensures { result ≡ gates self.entry.words.now }
    {
        word(self.words, 3)
    }

    // The record of gate i.
    pub fn gate(self, i: u16) -> Gate
        ensures { result ≡ gate_at self.entry.words.now i }
    {
        gate_at(self.words, i)
    }
}
