// A run of a netlist: the inputs are known, a gate whose inputs are all known makes its output known, until nothing more is added.
#![tactic(auto)]

ghost use Rattle.std.specs.Prelude.{◌≡◌, ◌↔◌, IsTrue, List, ℕ, ◌≤◌, ◌<◌, length, get_or};
ghost use Rattle.rules.specs.Netlist.{wires, gates};
ghost use Rattle.rules.specs.Run.{Inputs};
ghost use Rattle.clear.specs.Zeros.{zeros};
ghost use Rattle.netlist.specs.Answers.{told, no_text};
ghost use Rattle.run.specs.Ran.{Ran};
ghost use Rattle.run.specs.Going.{Pin, Visit, Going, Sweep, First};

use netlist::Netlist;
use rules::{Gate, Reason};

// The value at slot k, which holds x, of a gate with n inputs; 0 where the kind does not use the slot.
fn pin(values: &[u8], n: usize, k: usize, x: u16) -> u8
    requires { k < n → x < length values.now }
    ensures { Pin values.now n k x result }
{
    if k < n { values[usize::from(x)] } else { 0 }
}

// Gate j makes its output known where its inputs are; whether it did.
// The values are the bytes that a run shows: 0 and 1 for bits, 2 for unsettled.
#[tactic(auto, using(crate::proofs::Waits::waits))]
fn visit(net: Netlist, values: &mut [u8], j: u16) -> bool
    requires { (1536 ≤ length values.old) × (j < gates net.words.now) }
    ensures { Visit net.entry.words.now values.old j result values.new }
{
    let g = net.gate(j);
    let o = usize::from(g.out);
    if values[o] != 2 {
        return false;
    }
    let n = Gate::inputs(g.kind);
    let x = pin(values, n, 0, g.a);
    let y = pin(values, n, 1, g.b);
    let z = pin(values, n, 2, g.c);
    if x == 2 || y == 2 || z == 2 {
        return false;
    }
    values[o] = Gate::bit(g.kind, x, y, z);
    true
}

// Every gate in turn; whether one of them made its output known.
fn sweep(net: Netlist, values: &mut [u8]) -> bool
    requires { 1536 ≤ length values.old }
    ensures { let words = net.entry.words.now in (ins : List ℕ) → Inputs words ins → Going words ins values.old →
        Going words ins values.new × Sweep words values.old (gates words) result values.new }
{
    let mut changed = false;
    for i in 0..net.gates() {
        changed |= visit(net, values, i);
    }
    changed
}

// One byte, 0 or 1, for each main input.
fn inputs_fine(net: Netlist, inputs: &[u8]) -> bool
    ensures { IsTrue result ↔ Inputs net.entry.words.now inputs.now }
{
    inputs.len() == usize::from(net.inputs()) && inputs.iter().all(|b| *b < 2)
}

// The inputs known, the other wires unsettled.
fn start(net: Netlist, inputs: &[u8], values: &mut [u8])
    requires inputs { Inputs net.words.now inputs.now }
    requires in_bounds { (1536 ≤ length values.old) × (values.old ≡ zeros (length values.old)) }
    ensures by_index { (i : ℕ) → i < wires net.entry.words.now → First inputs.now i (get_or values.new i 0) }
    ensures by_index_2 { (i : ℕ) → wires net.entry.words.now ≤ i → get_or values.new i 0 ≡ 0 }
{
    let wires = usize::from(net.wires());
    values[..inputs.len()].copy_from_slice(inputs);
    values[inputs.len()..wires].fill(2);
}

// Runs a netlist on one byte for each main input. The values get one byte for each wire: 0, 1, or 2 for unsettled.
pub fn run(net: &[u16], inputs: &[u8], values: &mut [u8]) -> Result<(), Reason>
    ensures { Ran net.now inputs.now (length values.old) (told no_text result) values.new }
{
    clear::all(values);
    if values.len() < 1536 {
        return Err(Reason::ShortBuffer);
    }
    let net = Netlist::new(net)?;
    if !inputs_fine(net, inputs) {
        return Err(Reason::WrongInputs);
    }
    start(net, inputs, values);
    while sweep(net, values) {}
    Ok(())
}
