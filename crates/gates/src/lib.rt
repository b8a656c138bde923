// Steps, gates, and the wires that are driven.
#![tactic(auto)]

ghost use Rattle.std.specs.Prelude.{◌≡◌, ℕ, ◌+◌, ◌*◌, ◌-◌, ◌<◌, ◌≤◌, Bool, List, length};
ghost use Rattle.rules.specs.Primitives.{inputs_of};
ghost use Rattle.rules.specs.Unfold.{State, tick, emit, gate_on};
ghost use Rattle.frames.specs.Laid.{laid};
ghost use Rattle.gates.specs.Shows.{Shows, Gives, words_of, slot_of, Ends};

use frames::Vector;
use rules::{Gate, Reason};

// The next wire's number, the steps so far, and how many gates there are.
#[derive(Clone, Copy, PartialEq, Eq, Debug)]
pub struct Counts {
    pub wires: usize,
    pub steps: usize,
    pub gates: usize,
}

const STEPS: usize = 20000;

const GATES: usize = 1024;

// The input slot that a gate does not use.
const UNUSED: u16 = 65535;

impl Counts {
    // One step more.
    pub fn tick(self) -> Result<Counts, Reason>
        ensures { (v : State) (net : List ℕ) (marks : List Bool) → Shows v self net marks → Gives (tick v) result net marks }
    {
        if self.steps >= STEPS {
            return Err(Reason::TooManySteps);
        }
        Ok(Counts {
            steps: self.steps + 1,
            ..self
        })
    }
}

// Gate n of the netlist. One line of the library's, as in `read::put_record`: the two speak in different definitions.
fn write(net: &mut [u16], n: usize, gate: Gate)
    requires { (n < 1024) × (5124 ≤ length net.old) }
    ensures { net.new ≡ laid net.old (4 + 5 * n) (words_of gate) }
{
    let at = 4 + 5 * n;
    net[at..at + 5].copy_from_slice(&[gate.kind, gate.a, gate.b, gate.c, gate.out]);
}

// One gate more, where main's inputs are the wires below `inputs`: too many gates, then an output that is one of them or driven.
pub fn emit(
    net: &mut [u16],
    marks: &mut [bool; 1536],
    counts: Counts,
    inputs: usize,
    gate: Gate,
) -> Result<Counts, Reason>
    requires { (5124 ≤ length net.old) × (gate.out < 1536) }
    ensures gives { (v : State) → Shows v counts net.old marks.old → Gives (emit inputs gate v) result net.new marks.new }
    ensures net_len_unchanged { length net.new ≡ length net.old }
{
    let out = usize::from(gate.out);
    if counts.gates >= GATES {
        return Err(Reason::TooManyGates);
    }
    let driven = marks[out];
    if out < inputs || driven {
        return Err(Reason::DrivenTwice);
    }
    marks[out] = true;
    write(net, counts.gates, gate);
    Ok(Counts {
        gates: counts.gates + 1,
        ..counts
    })
}

// Input slot i of a gate with n inputs.
#[tactic(auto, unfolding(crate::specs::Shows::slot_of, rules::specs::Text::pick))]
fn slot(names: &[Vector; 48], i: usize, n: usize) -> u16
    requires { i < 48 }
    ensures { result ≡ slot_of names.now i n }
{
    if i < n { names[i].base } else { UNUSED }
}

// A primitive's gate on the wires that the first places hold: its inputs, then its output.
pub fn gate_on(kind: u16, names: &[Vector; 48]) -> Gate
    requires { kind < 10 }
    ensures { (ws : List ℕ) → Ends names.now ws → inputs_of kind < length ws → result ≡ gate_on kind ws }
{
    let n = Gate::inputs(kind);
    Gate {
        kind,
        a: slot(names, 0, n),
        b: slot(names, 1, n),
        c: slot(names, 2, n),
        out: names[n].base,
    }
}
