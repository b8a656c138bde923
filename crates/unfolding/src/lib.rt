// A whole resolved program: main's wires, its body, and the table of contents.
#![tactic(auto)]

ghost use Rattle.std.specs.Prelude.{◌≡◌, List, ◌∷◌, ℕ, ◌<◌, ◌≤◌, length, drop};
ghost use Rattle.rules.specs.Text.{zeros};
ghost use Rattle.rules.specs.Syntax.{Program as Written};
ghost use Rattle.rules.specs.Unfold.{unfold_main};
ghost use Rattle.places.specs.Held.{Held};
ghost use Rattle.unfolding.specs.Nets.{Nets, MainHeld, MainReady, Body};

use cycle::Use;
use gates::Counts;
use rules::Refusal;
use start::Begun;
use unfold::Program;

// How many levels of calls there may be below main.
const LEVELS: usize = 15;

// The table of contents: inputs, outputs, wires, gates. One line of the library's, as in `read::put_head`: the two speak in different
// definitions.
fn contents(net: &mut [u16], inputs: usize, outputs: usize, wires: usize, gates: usize)
    requires { (4 ≤ length net.old) × (inputs < 65536) × (outputs < 65536) × (wires < 65536) × (gates < 65536) }
    ensures net_after { net.new ≡ inputs ∷ outputs ∷ wires ∷ gates ∷ drop 4 net.old }
    ensures net_len_unchanged { length net.new ≡ length net.old }
{
    // Proved to fit: `try_from` would want an arm that never runs.
    net[..4].copy_from_slice(&[inputs as u16, outputs as u16, wires as u16, gates as u16]);
}

// Main's body, with one mark for each wire, and then the table of contents.
fn unfold_body(program: &Program, begun: &Begun, net: &mut [u16]) -> Result<usize, Refusal>
    requires ready { MainReady program.now.tape.now program.now.places.now program.now.last net.old begun.now.frame begun.now.inputs begun.now.outputs begun.now.wires begun.now.body.at begun.now.body.end }
    requires inputs { program.now.inputs ≡ begun.now.inputs }
    ensures by_index { (len : ℕ) (P : Written) → Body len P program.now.tape.now program.now.places.now program.now.last net.old begun.now.frame begun.now.inputs begun.now.outputs begun.now.wires begun.now.body.at begun.now.body.end
        → Nets (unfold_main P) (length net.old) result net.new }
    ensures net_len_unchanged { length net.new ≡ length net.old }
{
    let mut marks = [false; 1536];
    let counts = Counts {
        wires: begun.wires,
        steps: 0,
        gates: 0,
    };
    let main = Use {
        frame: begun.frame,
        left: LEVELS,
    };
    let done = cycle::statements(program, &main, begun.body, counts, net, &mut marks)?;
    contents(net, begun.inputs, begun.outputs, done.wires, done.gates);
    Ok(done.steps)
}

// The netlist of the resolved program of the first `end` words, whose main is block `main`, and its steps. The lent netlist holds zeros.
pub fn unfold_main(tape: &[u32], end: usize, main: usize, net: &mut [u16]) -> Result<usize, Refusal>
    requires { MainHeld tape.now end main × (net.old ≡ zeros (length net.old)) × (5124 ≤ length net.old) }
    ensures by_index { (s : List ℕ) (P : Written) → Held s tape.now end P → P.main ≡ main
        → Nets (unfold_main P) (length net.old) result net.new }
    ensures net_len_unchanged { length net.new ≡ length net.old }
{
    // A fixed array: the project uses no heap.
    let mut places = [0usize; 64];
    places::places(tape, end, &mut places);
    let begun = start::begin(tape, places[main], end)?;
    let program = Program {
        tape,
        places: &places,
        last: end,
        inputs: begun.inputs,
    };
    unfold_body(&program, &begun, net)
}
