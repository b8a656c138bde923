// Main's ports and locals, the first wires.
#![tactic(auto)]

ghost use Rattle.std.specs.Prelude.{◌≡◌, ℕ};
ghost use Rattle.rules.specs.Syntax.{Block, Callee};
ghost use Rattle.unfold.specs.Header.{HereBlock, WrittenBlock};
ghost use Rattle.start.specs.Begins.{Begins};

use frames::{Frame, Fresh};
use rules::Refusal;
use tape::Kind;
use unfold::Span;

// Main's frame where its body begins, the words of its body, and how many inputs, outputs and wires there are.
#[derive(Clone, Copy)]
pub struct Begun {
    pub body: Span,
    pub frame: Frame,
    pub inputs: usize,
    pub outputs: usize,
    pub wires: usize,
}

// Main, whose words begin at `place`, up to its body: wires from 0 on for its inputs, its outputs, its locals.
pub fn begin(tape: &[u32], place: usize, last: usize) -> Result<Begun, Refusal>
    requires { WrittenBlock tape.now place last }
    ensures { (M : Block ℕ Callee) → HereBlock tape.now place last M → Begins M place result }
{
    let mut frame = Frame::empty();
    let ports = unfold::after_generics(tape, place, last);
    let generics = Fresh {
        filled: ports - place - 1,
        wires: 0,
        next: ports,
    };
    let ins = frames::declare(
        tape,
        &frame.values,
        generics,
        last,
        Kind::In,
        &mut frame.names,
    )?;
    let outs = frames::declare(tape, &frame.values, ins, last, Kind::Out, &mut frame.names)?;
    let locals = frames::declare(tape, &frame.values, outs, last, Kind::Var, &mut frame.names)?;
    Ok(Begun {
        body: unfold::body_at(tape, locals.next),
        frame,
        inputs: ins.wires,
        outputs: outs.wires - ins.wires,
        wires: locals.wires,
    })
}
