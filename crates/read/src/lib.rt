// A flat text as a netlist: the netlist that the text would be written from is found with no test, and then its text is compared.
#![tactic(auto)]

ghost use Rattle.std.specs.Prelude.{◌≡◌, [], ◌∷◌, ◌+◌, ◌*◌, ◌<◌, ◌≤◌, length};
ghost use Rattle.std.proofs.lemmas.List.Edits.{sets};
ghost use Rattle.netlist.specs.Answers.{told, no_text};
ghost use Rattle.write.specs.Put.{Put};
ghost use Rattle.read.specs.WasRead.{WasRead};
ghost use Rattle.read.specs.Body.{record_of, GatesRead};
ghost use Rattle.read.specs.Guess.{Guess};

mod reader;

use reader::Reader;
use rules::{Gate, Reason};

// The record of gate i. Like `gates::write` one line of the library's; the two speak in different definitions (`Put` here, `laid` there).
fn put_record(net: &mut [u16], i: u16, g: Gate)
    requires { (i < 1024) × (5124 ≤ length net.old) }
    ensures { Put net.old (4 + 5 * i) (record_of g) (4 + 5 * (i + 1)) net.new }
{
    let p = 4 + 5 * usize::from(i);
    net[p..p + 5].copy_from_slice(&[g.kind, g.a, g.b, g.c, g.out]);
}

// The gates up to END: how many, with their records.
fn put_gates(reader: &mut Reader, net: &mut [u16]) -> u16
    requires { 5124 ≤ length net.old }
    ensures { GatesRead reader.old.rest.now net.old result net.new }
{
    for i in 0..1024 {
        if reader.byte(0) == b'E' {
            return i;
        }
        put_record(net, i, reader.gate());
        reader.pass(b';');
        reader.skip(1);
    }
    1024
}

// The table of contents. One line of the library's, as in `unfolding`, which has its counts in another type.
fn put_head(net: &mut [u16], inputs: u16, outputs: u16, wires: u16, gates: u16)
    requires { 4 ≤ length net.old }
    ensures { net.new ≡ sets net.old 0 (inputs ∷ outputs ∷ wires ∷ gates ∷ []) }
{
    net[..4].copy_from_slice(&[inputs, outputs, wires, gates]);
}

// The netlist that the text is written from, if there is one.
fn guess(text: &[u8], net: &mut [u16])
    requires { 5124 ≤ length net.old }
    ensures { Guess text.now net.old net.new }
{
    let mut reader = Reader { rest: text };
    reader.skip(12);
    let inputs = reader.ports(0);
    reader.skip(1);
    let outputs = reader.ports(inputs);
    let others = reader.vars(inputs + outputs);
    reader.skip(6);
    let gates = put_gates(&mut reader, net);
    put_head(net, inputs, outputs, inputs + outputs + others, gates);
}

// Reads a flat text into a netlist: exactly what writing gives is accepted.
pub fn read(text: &[u8], net: &mut [u16]) -> Result<(), Reason>
    ensures { WasRead text.now (length net.old) (told no_text result) net.new }
{
    clear::all(net);
    if net.len() < 5124 {
        return Err(Reason::ShortBuffer);
    }
    guess(text, net);
    if !compare::written_as(net, text) {
        clear::all(net);
        return Err(Reason::NotWellFormed);
    }
    Ok(())
}
