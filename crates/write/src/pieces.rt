// The flat text of a netlist, piece by piece, to whatever takes the pieces: memory that they are written to, or a text that they are compared with.
ghost use Rattle.std.specs.Prelude.{List, ℕ, ◌+◌, ◌<◌};
ghost use Rattle.rules.specs.Netlist.{gates, inputs_at};
ghost use Rattle.rules.specs.Text.{joined};
ghost use Rattle.rules.specs.Flat.{between, wire_text, entry_text, ports_text, vars_text, wires_text, gate_text, gates_text, flat_text};
ghost use Rattle.write.specs.Pieces.{call_of, slot_text};
ghost use Rattle.write.specs.Taken.{Taken, Laws};

use netlist::Netlist;
use rules::Gate;

// What takes pieces one after another, until it refuses one.
pub trait Pieces {
    // A piece is taken, and leaves this.
    ghost takes: { Self → List ℕ → Self → Type 0 };

    ghost refuses: { Self → List ℕ → Type 0 };

    // Two pieces are taken, or refused, as the one that they make.
    ghost laws: { Laws takes refuses };

    fn piece(&mut self, piece: &[u8]) -> Option<()>
        ensures { Taken takes refuses self.old piece.now result self.new };
}

// A mark where more follow: none after the last.
fn mark<P: Pieces>(to: &mut P, mark: &[u8], more: u16) -> Option<()>
    ensures { Taken P.takes P.refuses to.old (between mark.now more) result to.new }
{
    if more == 0 { Some(()) } else { to.piece(mark) }
}

// w5
fn wire<P: Pieces>(to: &mut P, number: u16) -> Option<()>
    ensures { Taken P.takes P.refuses to.old (wire_text number) result to.new }
{
    to.piece(b"w")?;
    to.piece(netlist::decimal_of(number).as_slice())
}

// w5:WIRE
fn entry<P: Pieces>(to: &mut P, number: u16) -> Option<()>
    ensures { Taken P.takes P.refuses to.old (entry_text number) result to.new }
{
    wire(to, number)?;
    to.piece(b":WIRE")
}

// So many ports from wire s on, and the end of their line.
fn ports<P: Pieces>(to: &mut P, s: u16, n: u16) -> Option<()>
    requires { s + n < 65536 }
    ensures { Taken P.takes P.refuses to.old (ports_text s n) result to.new }
{
    for i in 0..n {
        entry(to, s + i)?;
        mark(to, b",", n - (i + 1))?;
    }
    to.piece(b"]\n")
}

// So many other wires from wire s on, a line each.
fn vars<P: Pieces>(to: &mut P, s: u16, n: u16) -> Option<()>
    requires { s + n < 65536 }
    ensures { Taken P.takes P.refuses to.old (vars_text s n) result to.new }
{
    for i in 0..n {
        to.piece(b"VAR ")?;
        entry(to, s + i)?;
        to.piece(b";\n")?;
    }
    Some(())
}

// Slot k, which holds x, of a gate with n inputs: nothing where the kind does not use it.
fn slot<P: Pieces>(to: &mut P, n: usize, k: usize, x: u16) -> Option<()>
    ensures { Taken P.takes P.refuses to.old (slot_text n k x) result to.new }
{
    if k >= n {
        return Some(());
    }
    wire(to, x)?;
    if k + 1 < n { to.piece(b",") } else { Some(()) }
}

// The input wires of a gate.
fn slots<P: Pieces>(to: &mut P, g: Gate) -> Option<()>
    ensures { Taken P.takes P.refuses to.old (wires_text (inputs_at g)) result to.new }
{
    let n = Gate::inputs(g.kind);
    slot(to, n, 0, g.a)?;
    slot(to, n, 1, g.b)?;
    slot(to, n, 2, g.c)
}

// The name of a kind and the bracket after it.
pub fn call<P: Pieces>(to: &mut P, kind: u16) -> Option<()>
    ensures { Taken P.takes P.refuses to.old (joined (call_of kind)) result to.new }
{
    to.piece(Gate::name(kind))?;
    to.piece(b" [")
}

// xor [w5,w1] [w6]
fn gate<P: Pieces>(to: &mut P, g: Gate) -> Option<()>
    ensures { Taken P.takes P.refuses to.old (gate_text g) result to.new }
{
    call(to, g.kind)?;
    slots(to, g)?;
    to.piece(b"] [")?;
    wire(to, g.out)?;
    to.piece(b"]")
}

// One gate a line, each but the last with a semicolon.
fn gates<P: Pieces>(net: Netlist, to: &mut P) -> Option<()>
    ensures { let words = net.entry.words.now in Taken P.takes P.refuses to.old (gates_text words 0 (gates words)) result to.new }
{
    let n = net.gates();
    for i in 0..n {
        gate(to, net.gate(i))?;
        mark(to, b";", n - (i + 1))?;
        to.piece(b"\n")?;
    }
    Some(())
}

// The whole text of a netlist.
pub fn text<P: Pieces>(net: Netlist, to: &mut P) -> Option<()>
    ensures { Taken P.takes P.refuses to.old (flat_text net.entry.words.now) result to.new }
{
    let inputs = net.inputs();
    let outputs = net.outputs();
    let others = net.wires() - (inputs + outputs);
    to.piece(b"BLOCK main\n[")?;
    ports(to, 0, inputs)?;
    to.piece(b"[")?;
    ports(to, inputs, outputs)?;
    vars(to, inputs + outputs, others)?;
    to.piece(b"BEGIN\n")?;
    gates(net, to)?;
    to.piece(b"END;\n")
}
