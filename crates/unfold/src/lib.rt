// The unfolding of a resolved program on the tape.
#![tactic(auto)]

ghost use Rattle.std.specs.Prelude.{◌≡◌, ℕ, ◌+◌, ◌*◌, ◌-◌, ◌<◌, ◌≤◌, List, ◌++◌, length, get_or};
ghost use Rattle.rules.specs.Syntax.{Exp, Arg, Stmts, Block, Callee};
ghost use Rattle.rules.specs.Values.{Env};
ghost use Rattle.rules.specs.Frames.{Frame as Names};
ghost use Rattle.rules.specs.Unfold.{Range, State};
ghost use Rattle.frames.specs.Stands.{Stands, Knows};
ghost use Rattle.unfold.specs.Header.{HereBlock, WrittenBlock, after_generics, after_locals};
ghost use Rattle.tape.specs.Layout.{kind_of, value_of};
ghost use Rattle.unfold.specs.Quiet.{Calm, WrittenCalm, is_loud};
ghost use Rattle.unfold.specs.Opening.{WrittenOpen, Opens};
ghost use Rattle.unfold.specs.Statements.{HereStmts};
ghost use Rattle.unfold.specs.Onward.{WrittenStatement, later, Heads};
ghost use Rattle.gates.specs.Shows.{Shows, Gives};
ghost use Rattle.unfold.specs.Adding.{WrittenGate, Fits, added};
ghost use Rattle.unfold.specs.Entering.{HereCall, WrittenCall, Collects, Offers, WrittenHeader, entered, Enters};

use frames::{Frame, Fresh, Many};
use gates::Counts;
use rules::Reason;
use tape::Kind;

// A resolved program: its words, where each block begins (64 at most, in a fixed array: the project uses no heap), how many words are used,
// and how many inputs main has.
#[derive(Clone, Copy)]
pub struct Program<'a> {
    pub tape: &'a [u32],
    pub places: &'a [usize; 64],
    pub last: usize,
    pub inputs: usize,
}

// Words of the tape: the first, and the place after the last.
#[derive(Clone, Copy, PartialEq, Eq, Debug)]
pub struct Span {
    pub at: usize,
    pub end: usize,
}

// A statement: a primitive by its kind, a block by its number, a loop by its index.
#[derive(Clone, Copy, PartialEq, Eq, Debug)]
pub enum What {
    Gate(u16),
    Block(usize),
    Loop(usize),
}

// What a statement's first word tells: what it is, and its place in the text.
#[derive(Clone, Copy, PartialEq, Eq, Debug)]
pub struct Head {
    pub what: What,
    pub place: usize,
}

// A block that is entered: the words of its body, the next wire, and the frame of its body.
#[derive(Clone, Copy)]
pub struct Opened {
    pub body: Span,
    pub wires: usize,
    pub frame: Frame,
}

// The place after the generics of a block, whose words begin at `at`. This scan, `after_parts` and `places::first_body` are apart: one
// over a closure would owe a clause about its test, and each would still turn that clause into what it says of its own words.
pub fn after_generics(tape: &[u32], at: usize, end: usize) -> usize
    requires { WrittenBlock tape.now at end }
    ensures { (B : Block ℕ Callee) → HereBlock tape.now at end B → (result ≡ after_generics at B) × (result ≡ at + 1 + length B.generics) }
{
    for i in at + 1..end {
        if !tape::is(tape[i], Kind::Generic) {
            return i;
        }
    }
    end
}

// The generics and the arguments of the call whose words are `call`; the wires are stored from place `to` on.
fn gather(
    tape: &[u32],
    frame: &Frame,
    call: Span,
    to: usize,
    into: &mut Frame,
) -> Result<Many, Reason>
    requires written_call { WrittenCall tape.now call.at call.end frame.now }
    requires to_bound { (to ≤ 48) × (length into.old.values ≡ 48) × (length into.old.names ≡ 48) }
    ensures { (ρ : Env) (σ : Names Range) (gs : List (Exp ℕ)) (ins outs : List (Arg ℕ)) → Stands frame.now ρ σ → HereCall tape.now call.at call.end (length σ) gs ins outs
        → Collects ρ σ gs (ins ++ outs) to into.old result into.new }
{
    let given = frames::evaluate(tape, &frame.values, call.at, call.end, &mut into.values)?;
    frames::arguments(tape, frame, given.next, call.end, to, &mut into.names)
}

// The ports of the block at `at`, tied to the wires given, and its locals.
fn enter(
    tape: &[u32],
    at: usize,
    end: usize,
    wires: usize,
    into: &mut Frame,
) -> Result<Fresh, Reason>
    requires written_header { WrittenHeader tape.now at end into.old.names }
    requires wires_bound { wires ≤ 1536 }
    ensures enters { (ρ : Env) (B : Block ℕ Callee) (rs : List Range) (s : State) → Knows into.old.values ρ → HereBlock tape.now at end B
        → Offers B rs into.old.names → s.next ≡ wires
        → Enters (entered ρ B rs s) s (after_locals at B) result into.new.names }
    ensures values_unchanged { into.new.values ≡ into.old.values }
{
    let ports = after_generics(tape, at, end);
    let generics = ports - at - 1;
    let tied = frames::tie(tape, &into.values, ports, end, generics, &mut into.names)?;
    let from = Fresh {
        filled: tied.filled,
        wires,
        next: tied.next,
    };
    frames::declare(tape, &into.values, from, end, Kind::Var, &mut into.names).map_err(
        |refusal| refusal.reason,
    )
}

// The words of the body whose word is at `at`.
pub fn body_at(tape: &[u32], at: usize) -> Span
    requires { (at < length tape.now) × (at < 33554432) }
    ensures { result ≡ record { at = at + 1; end = at + 1 + value_of (get_or tape.now at 0) } }
{
    Span {
        at: at + 1,
        end: at + 1 + tape::value_of(tape[at]),
    }
}

// A call, of the block at `place`, up to its body: generics, every subscript, each port, then its locals.
pub fn open(
    program: &Program,
    frame: &Frame,
    call: Span,
    place: usize,
    wires: usize,
) -> Result<Opened, Reason>
    requires written_open { WrittenOpen program.now.tape.now call.at call.end place program.now.last frame.now }
    requires wires_bound { wires ≤ 1536 }
    ensures { (ρ : Env) (σ : Names Range) (gs : List (Exp ℕ)) (ins outs : List (Arg ℕ)) (B : Block ℕ Callee) (s : State) → Stands frame.now ρ σ
        → HereCall program.now.tape.now call.at call.end (length σ) gs ins outs → HereBlock program.now.tape.now place program.now.last B
        → length B.inputs + length B.outputs ≡ length (ins ++ outs) → s.next ≡ wires → Opens ρ σ gs (ins ++ outs) B s place result }
{
    let tape = program.tape;
    let to = after_generics(tape, place, program.last) - place - 1;
    let mut inner = Frame::empty();
    gather(tape, frame, call, to, &mut inner)?;
    let fresh = enter(tape, place, program.last, wires, &mut inner)?;
    Ok(Opened {
        body: body_at(tape, fresh.next),
        wires: fresh.wires,
        frame: inner,
    })
}

// The call of a primitive: generics, every subscript, then too many gates, or an output that is driven already.
pub fn add(
    program: &Program,
    frame: &Frame,
    call: Span,
    kind: u16,
    counts: Counts,
    net: &mut [u16],
    marks: &mut [bool; 1536],
) -> Result<Counts, Reason>
    requires written_gate { WrittenGate program.now.tape.now call.at call.end frame.now kind }
    requires in_bounds { (5124 ≤ length net.old) × (kind < 10) }
    ensures gives { (ρ : Env) (σ : Names Range) (gs : List (Exp ℕ)) (ins outs : List (Arg ℕ)) (v : State) → Stands frame.now ρ σ
        → HereCall program.now.tape.now call.at call.end (length σ) gs ins outs → Fits kind ρ σ (ins ++ outs) → Shows v counts net.old marks.old
        → Gives (added program.now.inputs kind ρ σ gs (ins ++ outs) v) result net.new marks.new }
    ensures net_len_unchanged { length net.new ≡ length net.old }
{
    let mut ends = Frame::empty();
    gather(program.tape, frame, call, 0, &mut ends)?;
    let gate = gates::gate_on(kind, &ends.names);
    gates::emit(net, marks, counts, program.inputs, gate)
}

// Whether a word begins a statement or a body.
fn is_loud(word: u32) -> bool
    ensures { result ≡ is_loud (kind_of word) }
{
    tape::is(word, Kind::Call) || tape::is(word, Kind::Loop) || tape::is(word, Kind::Body)
}

// The place after the words from `at` on that belong to the parts of one statement: at the next statement, at a body, or at the end. Apart
// from `after_generics`: see there.
fn after_parts(tape: &[u32], at: usize, end: usize) -> usize
    requires { WrittenCalm tape.now at end }
    ensures { (ws : List ℕ) → Calm tape.now at end ws → result ≡ at + length ws }
{
    for i in at..end {
        if is_loud(tape[i]) {
            return i;
        }
    }
    end
}

// The place after the statement at `at`: past its parts, and past its body where one stands there.
pub fn after_statement(tape: &[u32], at: usize, end: usize) -> usize
    requires { WrittenStatement tape.now at end }
    ensures { (len : ℕ) (c : Stmts ℕ Callee) → HereStmts len tape.now at end c → at < end → HereStmts len tape.now result end (later c) × (at < result) }
{
    let i = after_parts(tape, at + 1, end);
    if frames::among(tape, i, end, Kind::Body, Kind::Body) {
        return body_at(tape, i).end;
    }
    i
}

// What the statement at `at` begins with. A call's word holds its place times 128, and a primitive's kind or ten more than a block's number.
pub fn begins_with(tape: &[u32], at: usize, end: usize) -> Head
    requires { WrittenStatement tape.now at end }
    ensures { (len : ℕ) (c : Stmts ℕ Callee) → HereStmts len tape.now at end c → at < end → Heads c result }
{
    let word = tape[at];
    let value = tape::value_of(word);
    if tape::is(word, Kind::Loop) {
        let index = tape::value_of(tape[at + 1]);
        return Head {
            what: What::Loop(index),
            place: value,
        };
    }
    let meant = value % 128;
    // Proved to fit: `try_from` would want an arm that never runs.
    let what = if meant < 10 {
        What::Gate(meant as u16)
    } else {
        What::Block(meant - 10)
    };
    Head {
        what,
        place: value / 128,
    }
}
