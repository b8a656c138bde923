// Statements, rounds and calls, which unfold each other.
// `(counts, net, marks)` stay parameters: a struct that holds `&mut` owes a clause about its references in each contract.
#![tactic(auto)]

ghost use Rattle.std.specs.Prelude.{◌≡◌, ℕ, ◌+◌, ◌*◌, ◌-◌, ◌<◌, ◌≤◌, length, get_or, nat_abs};
ghost use Rattle.rules.specs.Outcome.{ok};
ghost use Rattle.rules.specs.Syntax.{Stmts, Callee, gate, block as numbered, Program as Written};
ghost use Rattle.rules.specs.Values.{Env};
ghost use Rattle.rules.specs.Frames.{Frame as Names};
ghost use Rattle.rules.specs.Unfold.{Range, State, tick, unfolds, deep, turns as turns_of};
ghost use Rattle.unfold.specs.Onward.{alone, IsCall, IsLoop};
ghost use Rattle.cycle.specs.Task.{Task, Ready, Answers};
ghost use Rattle.cycle.specs.Calls.{CallReady, LoopReady};
ghost use Rattle.cycle.specs.Rounds.{round as round_of, rounded};

use frames::Frame;
use gates::Counts;
use rules::{Reason, Refusal};
use unfold::{Program, Span, What};

// One use of a block: what its names stand for, and how many levels of calls there may still be below it.
#[derive(Clone, Copy)]
pub struct Use {
    pub frame: Frame,
    pub left: usize,
}

// A statement: its words, up to the end of the statements that it is one of, and its place in the text.
#[derive(Clone, Copy, PartialEq, Eq, Debug)]
struct Placed {
    words: Span,
    place: usize,
}

// The rounds of a loop: the number of its index, its place in the text, its first index, and how many rounds there are.
#[derive(Clone, Copy, PartialEq, Eq, Debug)]
struct Loop {
    index: usize,
    place: usize,
    first: i32,
    count: usize,
}

// One round: the number of the loop's index, the loop's place in the text, and the value of the index.
#[derive(Clone, Copy, PartialEq, Eq, Debug)]
struct Turn {
    index: usize,
    place: usize,
    value: i32,
}

// The call of a primitive: its step was begun.
fn gate_call(
    program: &Program,
    within: &Use,
    call: Placed,
    kind: u16,
    counts: Counts,
    net: &mut [u16],
    marks: &mut [bool; 1536],
) -> Result<Counts, Refusal>
    requires { CallReady (gate kind) call.place program.now.tape.now program.now.places.now program.now.last call.words.at call.words.end within.now.frame counts net.old marks.old × (kind < 10) }
    ensures by_index { (len : ℕ) (P : Written) (left : ℕ) (c : Stmts ℕ Callee) (ρ : Env) (σ : Names Range) (v v₁ : State)
        → Task len P program.now.tape.now program.now.places.now program.now.last call.words.at call.words.end within.now.frame counts net.old marks.old c ρ σ v₁ → IsCall (gate kind) call.place c → tick v ≡ ok v₁
        → Answers (unfolds program.now.inputs (deep program.now.inputs P left) (alone c) ρ σ v) result net.new marks.new }
    ensures net_len_unchanged { length net.new ≡ length net.old }
{
    let parts = Span {
        at: call.words.at + 1,
        end: call.words.end,
    };
    unfold::add(program, &within.frame, parts, kind, counts, net, marks).map_err(|reason| Refusal {
        reason,
        place: call.place,
    })
}

// The statements of a body, one after the other.
#[cycle(called_looped_round_statement_statements_turns)]
pub fn statements(
    program: &Program,
    within: &Use,
    body: Span,
    counts: Counts,
    net: &mut [u16],
    marks: &mut [bool; 1536],
) -> Result<Counts, Refusal>
    requires { Ready program.now.tape.now program.now.places.now program.now.last body.at body.end within.now.frame counts net.old marks.old }
    ensures by_index { (len : ℕ) (P : Written) (c : Stmts ℕ Callee) (ρ : Env) (σ : Names Range) (v : State)
        → Task len P program.now.tape.now program.now.places.now program.now.last body.at body.end within.now.frame counts net.old marks.old c ρ σ v
        → Answers (unfolds program.now.inputs (deep program.now.inputs P within.now.left) c ρ σ v) result net.new marks.new }
    ensures net_len_unchanged { length net.new ≡ length net.old }
{
    let mut at = body.at;
    let mut so_far = counts;
    // No range: where a statement ends is known when its words are read.
    while at < body.end {
        let words = Span { at, end: body.end };
        so_far = statement(program, within, words, so_far, net, marks)?;
        at = unfold::after_statement(program.tape, at, body.end);
    }
    Ok(so_far)
}

// The statement at the first of these words: its step, then its call or its loop.
#[cycle(called_looped_round_statement_statements_turns)]
fn statement(
    program: &Program,
    within: &Use,
    words: Span,
    counts: Counts,
    net: &mut [u16],
    marks: &mut [bool; 1536],
) -> Result<Counts, Refusal>
    requires { Ready program.now.tape.now program.now.places.now program.now.last words.at words.end within.now.frame counts net.old marks.old × (words.at < words.end) }
    ensures by_index { (len : ℕ) (P : Written) (c : Stmts ℕ Callee) (ρ : Env) (σ : Names Range) (v : State)
        → Task len P program.now.tape.now program.now.places.now program.now.last words.at words.end within.now.frame counts net.old marks.old c ρ σ v
        → Answers (unfolds program.now.inputs (deep program.now.inputs P within.now.left) (alone c) ρ σ v) result net.new marks.new }
    ensures net_len_unchanged { length net.new ≡ length net.old }
{
    let head = unfold::begins_with(program.tape, words.at, words.end);
    let place = head.place;
    let begun = counts.tick().map_err(|reason| Refusal { reason, place })?;
    let it = Placed { words, place };
    match head.what {
        What::Gate(kind) => gate_call(program, within, it, kind, begun, net, marks),
        What::Block(block) => called(program, within, it, block, begun, net, marks),
        What::Loop(index) => looped(program, within, it, index, begun, net, marks),
    }
}

// The call of a block: its step was begun. Too deep, then generics, subscripts, ports and locals, then its body.
#[cycle(called_looped_round_statement_statements_turns)]
fn called(
    program: &Program,
    within: &Use,
    call: Placed,
    block: usize,
    counts: Counts,
    net: &mut [u16],
    marks: &mut [bool; 1536],
) -> Result<Counts, Refusal>
    requires { CallReady (numbered block) call.place program.now.tape.now program.now.places.now program.now.last call.words.at call.words.end within.now.frame counts net.old marks.old × (block < 64) × (call.words.at < call.words.end) }
    ensures by_index { (len : ℕ) (P : Written) (c : Stmts ℕ Callee) (ρ : Env) (σ : Names Range) (v v₁ : State)
        → Task len P program.now.tape.now program.now.places.now program.now.last call.words.at call.words.end within.now.frame counts net.old marks.old c ρ σ v₁ → IsCall (numbered block) call.place c → tick v ≡ ok v₁
        → Answers (unfolds program.now.inputs (deep program.now.inputs P within.now.left) (alone c) ρ σ v) result net.new marks.new }
    ensures net_len_unchanged { length net.new ≡ length net.old }
{
    let place = call.place;
    if within.left == 0 {
        return Err(Refusal {
            reason: Reason::TooDeep,
            place,
        });
    }
    let parts = Span {
        at: call.words.at + 1,
        end: call.words.end,
    };
    let begins = program.places[block];
    let opened = unfold::open(program, &within.frame, parts, begins, counts.wires).map_err(
        |reason| Refusal { reason, place },
    )?;
    let entered = Counts {
        wires: opened.wires,
        ..counts
    };
    let inner = Use {
        frame: opened.frame,
        left: within.left - 1,
    };
    statements(program, &inner, opened.body, entered, net, marks)
}

// A loop: its step was begun. Its bounds are worked out once.
#[cycle(called_looped_round_statement_statements_turns)]
fn looped(
    program: &Program,
    within: &Use,
    it: Placed,
    index: usize,
    counts: Counts,
    net: &mut [u16],
    marks: &mut [bool; 1536],
) -> Result<Counts, Refusal>
    requires { LoopReady index it.place program.now.tape.now program.now.places.now program.now.last it.words.at it.words.end within.now.frame counts net.old marks.old × (index < 48) × (it.words.at < it.words.end) }
    ensures by_index { (len : ℕ) (P : Written) (c : Stmts ℕ Callee) (ρ : Env) (σ : Names Range) (v v₁ : State)
        → Task len P program.now.tape.now program.now.places.now program.now.last it.words.at it.words.end within.now.frame counts net.old marks.old c ρ σ v₁ → IsLoop index it.place c → tick v ≡ ok v₁
        → Answers (unfolds program.now.inputs (deep program.now.inputs P within.now.left) (alone c) ρ σ v) result net.new marks.new }
    ensures net_len_unchanged { length net.new ≡ length net.old }
{
    let place = it.place;
    let rounds = values::span(
        program.tape,
        &within.frame.values,
        it.words.at + 2,
        it.words.end,
    )
    .map_err(|reason| Refusal { reason, place })?;
    let body = unfold::body_at(program.tape, rounds.next);
    let each = Loop {
        index,
        place,
        first: rounds.first,
        count: rounds.count,
    };
    turns(program, within, body, each, counts, net, marks)
}

// The rounds of a loop's body.
#[cycle(called_looped_round_statement_statements_turns)]
fn turns(
    program: &Program,
    within: &Use,
    body: Span,
    each: Loop,
    counts: Counts,
    net: &mut [u16],
    marks: &mut [bool; 1536],
) -> Result<Counts, Refusal>
    requires { Ready program.now.tape.now program.now.places.now program.now.last body.at body.end within.now.frame counts net.old marks.old × (each.index < 48) × (nat_abs each.first ≤ 1000000) × (each.count ≤ 2000001) }
    ensures by_index { (len : ℕ) (P : Written) (c : Stmts ℕ Callee) (ρ : Env) (σ : Names Range) (v : State)
        → Task len P program.now.tape.now program.now.places.now program.now.last body.at body.end within.now.frame counts net.old marks.old c ρ σ v
        → Answers (turns_of each.place (round_of program.now.inputs within.now.left P each.index c ρ σ) each.first each.count v) result net.new marks.new }
    ensures net_len_unchanged { length net.new ≡ length net.old }
{
    let mut so_far = counts;
    for k in 0..each.count {
        // Proved to fit: `try_from` would want an arm that never runs.
        let one = Turn {
            index: each.index,
            place: each.place,
            value: each.first + k as i32,
        };
        so_far = round(program, within, body, one, so_far, net, marks)?;
    }
    Ok(so_far)
}

// One round of a loop's body: its step, then its statements, where the index has its value.
#[cycle(called_looped_round_statement_statements_turns)]
fn round(
    program: &Program,
    within: &Use,
    body: Span,
    one: Turn,
    counts: Counts,
    net: &mut [u16],
    marks: &mut [bool; 1536],
) -> Result<Counts, Refusal>
    requires { Ready program.now.tape.now program.now.places.now program.now.last body.at body.end within.now.frame counts net.old marks.old × (one.index < 48) }
    ensures by_index { (len : ℕ) (P : Written) (c : Stmts ℕ Callee) (ρ : Env) (σ : Names Range) (v : State)
        → Task len P program.now.tape.now program.now.places.now program.now.last body.at body.end within.now.frame counts net.old marks.old c ρ σ v
        → Answers (rounded program.now.inputs within.now.left P one.index one.place c ρ σ one.value v) result net.new marks.new }
    ensures net_len_unchanged { length net.new ≡ length net.old }
{
    let place = one.place;
    let begun = counts.tick().map_err(|reason| Refusal { reason, place })?;
    let inner = Use {
        frame: within.frame.with_index(one.index, one.value),
        left: within.left,
    };
    statements(program, &inner, body, begun, net, marks)
}
