// Statements: calls and loops, onto the tape. A loop's body and its statements call each other.
#![tactic(auto)]

ghost use Rattle.std.specs.Prelude.{◌≡◌, [], ◌∷◌, ◌+◌, ◌≤◌, ◌<◌, length};
ghost use Rattle.rules.specs.Syntax.{end, before};
ghost use Rattle.rules.specs.Readers.{spelling, if_next, give, some, rest};
ghost use Rattle.rules.specs.Grammar.{expression, argument as argument_at, arguments as arguments_at, calling, statement as statement_at, statements_of};
ghost use Rattle.tape.specs.Kinds.{code};
ghost use Rattle.tape.specs.Layout.{name_w};
ghost use Rattle.tape.specs.Encoding.{exp_w, arg_w, list_w, stmts_w, callee_w};
ghost use Rattle.tape.specs.Written.{Gives, none};
ghost use Rattle.marks.specs.Room.{Room, Spends};
ghost use Rattle.marks.specs.declared.Key.TheVariants.{Comma, Close, Right};
ghost use Rattle.lists.specs.Items.{ReadsPlain, ListsPlain, plain_laws_of, comma-seen};
ghost use Rattle.statements.specs.Heads.{Heads};
ghost use Rattle.statements.specs.Rows.{arguments-row, values-row};

use lists::Item;
use marks::{Divided, Key, Spot};
use rules::{Reason, Refusal, Word};
use tape::{Kind, Read};

// An argument: a name, or a name with one subscript.
fn argument(
    text: &[u8],
    tape: &mut [u32],
    at: usize,
    to: usize,
    kind: Kind,
) -> Result<Read, Refusal>
    requires { Room 15 text.now tape.old at to }
    ensures gives { Gives none (arg_w name_w (code kind)) (argument_at text.now at) tape.old to tape.new result }
    ensures spends { Spends 1 0 (length text.now) at to result }
{
    let name = marks::name(text, at)?;
    let Some(open) = marks::optional(text, name.next, Key::Open) else {
        tape::store_name(tape, to, kind, 0, name.place, name.next);
        return Ok(Read {
            next: name.next,
            end: to + 1,
            names: 0,
        });
    };
    tape::store_name(tape, to, kind, 1, name.place, name.next);
    let subscript = expressions::value(text, tape, open.next, to + 1)?;
    let close = marks::mark(text, subscript.next, Key::Close)?;
    Ok(Read {
        next: close.next,
        end: subscript.end,
        names: 0,
    })
}

// An argument of this kind, as an item of a list.
#[derive(Clone, Copy)]
struct OneArgument {
    kind: Kind,
}

impl Item for OneArgument {
    ghost reads = { λ a. ReadsPlain (arg_w name_w (code a.kind)) argument_at };

    ghost lists = { λ a. ListsPlain (arg_w name_w (code a.kind)) argument_at "," "]" };

    ghost room = { 14 };

    ghost SEPARATOR = { Comma };

    ghost CLOSE = { Right };

    ghost seen = { comma-seen };

    ghost laws = { λ a. plain_laws_of _ _ _ _ (λ s. arguments-row s (code a.kind)) };

    const SEPARATOR: Key = Key::Comma;

    const CLOSE: Key = Key::Right;

    fn read(
        self,
        text: &[u8],
        tape: &mut [u32],
        before: Read,
        _place: usize,
    ) -> Result<Read, Refusal> {
        argument(text, tape, before.next, before.end, self.kind)
    }
}

// Arguments in square brackets.
fn arguments(
    text: &[u8],
    tape: &mut [u32],
    at: usize,
    to: usize,
    kind: Kind,
) -> Result<Read, Refusal>
    requires { Room 14 text.now tape.old at to }
    ensures gives { Gives none (list_w (arg_w name_w (code kind))) (arguments_at text.now at) tape.old to tape.new result }
    ensures spends { Spends 0 1 (length text.now) at to result }
{
    let open = marks::mark(text, at, Key::Left)?;
    if let Some(close) = marks::optional(text, open.next, Key::Right) {
        return Ok(Read {
            next: close.next,
            end: to,
            names: 0,
        });
    }
    let first = argument(text, tape, open.next, to, kind)?;
    lists::more(text, tape, first, OneArgument { kind })
}

// A generic of a call, as an item of a list.
#[derive(Clone, Copy)]
struct OneValue;

impl Item for OneValue {
    ghost reads = { λ _. ReadsPlain (exp_w name_w 0) expression };

    ghost lists = { λ _. ListsPlain (exp_w name_w 0) expression "," ")" };

    ghost room = { 14 };

    ghost SEPARATOR = { Comma };

    ghost CLOSE = { Close };

    ghost seen = { comma-seen };

    ghost laws = { λ _. plain_laws_of _ _ _ _ values-row };

    const SEPARATOR: Key = Key::Comma;

    const CLOSE: Key = Key::Close;

    fn read(
        self,
        text: &[u8],
        tape: &mut [u32],
        before: Read,
        _place: usize,
    ) -> Result<Read, Refusal> {
        expressions::value(text, tape, before.next, before.end)
    }
}

// The generics of a call, if there are any.
fn values(text: &[u8], tape: &mut [u32], at: usize, to: usize) -> Result<Read, Refusal>
    requires { Room 14 text.now tape.old at to }
    ensures gives { Gives none (list_w (exp_w name_w 0)) (if_next text.now "(" (some text.now [] ◌∷◌ (λ _ _. expression text.now) "," ")" 0) (give []) at) tape.old to tape.new result }
    ensures spends { Spends 0 0 (length text.now) at to result }
{
    let Some(open) = marks::optional(text, at, Key::Open) else {
        return Ok(Read {
            next: at,
            end: to,
            names: 0,
        });
    };
    let first = expressions::value(text, tape, open.next, to)?;
    lists::more(text, tape, first, OneValue)
}

// A call of a name.
fn call(text: &[u8], tape: &mut [u32], name: Spot, to: usize) -> Result<Read, Refusal>
    requires { Room 15 text.now tape.old name.place to × (name.place < name.next) × (name.next ≤ length text.now) × (name.next ≤ name.place + 16) }
    ensures gives { Gives none (stmts_w name_w callee_w) (calling text.now (spelling text.now name.place name.next) name.next) tape.old to tape.new result }
    ensures spends { Spends 0 1 (length text.now) name.place to result }
{
    tape::store_name(tape, to, Kind::Call, 0, name.place, name.next);
    let generics = values(text, tape, name.next, to + 1)?;
    let inputs = arguments(text, tape, generics.next, generics.end, Kind::Input)?;
    let outputs = arguments(text, tape, inputs.next, inputs.end, Kind::Output)?;
    Ok(Read {
        next: outputs.next,
        end: outputs.end,
        names: 0,
    })
}

// A loop up to its BEGIN, after GENERATE, which stands at p.
fn loop_head(text: &[u8], tape: &mut [u32], at: usize, to: usize, p: usize) -> Result<Read, Refusal>
    requires { Room 15 text.now tape.old at to × (p < 16384) }
    ensures heads { Heads text.now p at tape.old to tape.new result }
    ensures spends { Spends 0 4 (length text.now) at to result }
{
    let each = marks::mark(text, at, Key::For)?;
    let index = marks::name(text, each.next)?;
    let equals = marks::mark(text, index.next, Key::Equals)?;
    tape::store(tape, to, Kind::Loop, 0, p);
    tape::store_name(tape, to + 1, Kind::Index, 0, index.place, index.next);
    let bounds = expressions::bounds(text, tape, equals.next, to + 2)?;
    let begin = marks::mark(text, bounds.next, Key::Begin)?;
    Ok(Read {
        next: begin.next,
        end: bounds.end,
        names: 0,
    })
}

// A statement, where `left` more loops may stand inside one another.
#[tactic(auto, using(crate::specs::Loops::not_begun))]
#[cycle(more_statements_statement_statements)]
fn statement(
    text: &[u8],
    tape: &mut [u32],
    at: usize,
    to: usize,
    left: usize,
) -> Result<Read, Refusal>
    requires { Room 15 text.now tape.old at to }
    ensures gives { Gives none (stmts_w name_w callee_w) (statement_at text.now left at) tape.old to tape.new result }
    ensures spends { Spends 0 1 (length text.now) at to result }
{
    let word = words::word_at(text, at);
    match word {
        Word::Bad(_) | Word::Number(_, _, _) => Err(marks::unwanted(word)),
        Word::Name(place, next) => call(text, tape, Spot { next, place }, to),
        Word::Mark(b, place, next) => {
            if b != Key::Generate.code() {
                return Err(marks::unwanted(word));
            }
            if left == 0 {
                return Err(Refusal {
                    reason: Reason::TooMany,
                    place,
                });
            }
            let head = loop_head(text, tape, next, to, place)?;
            let body = statements(text, tape, head.next, head.end + 1, left - 1)?;
            tape::store(tape, head.end, Kind::Body, 0, body.end - head.end - 1);
            Ok(Read {
                next: body.next,
                end: body.end,
                names: 0,
            })
        }
    }
}

// What stands after a statement: more of them, and END.
// It has a loop of its own: `lists::more` would call `statement` as a trait's method, and a cycle through one is not provable here.
#[cycle(more_statements_statement_statements)]
fn more_statements(
    text: &[u8],
    tape: &mut [u32],
    at: usize,
    to: usize,
    left: usize,
) -> Result<Read, Refusal>
    requires { Room 15 text.now tape.old at to }
    ensures gives { Gives none (stmts_w name_w callee_w) (rest text.now end before (λ _ _. statement_at text.now left) ";" "END" 1 at) tape.old to tape.new result }
    ensures spends { Spends 0 3 (length text.now) at to result }
{
    let mut read = Read {
        next: at,
        end: to,
        names: 0,
    };
    loop {
        match marks::separator(text, read.next, Key::Semicolon, Key::End)? {
            Divided::Last(next) => {
                return Ok(Read { next, ..read });
            }
            Divided::Another(spot) => {
                read = statement(text, tape, spot.next, read.end, left)?;
            }
        }
    }
}

// Statements divided by `;`, and END, where `left` more loops may stand inside one another.
#[cycle(more_statements_statement_statements)]
pub fn statements(
    text: &[u8],
    tape: &mut [u32],
    at: usize,
    to: usize,
    left: usize,
) -> Result<Read, Refusal>
    requires { Room 15 text.now tape.old at to }
    ensures gives { Gives none (stmts_w name_w callee_w) (statements_of text.now (statement_at text.now left) at) tape.old to tape.new result }
    ensures spends { Spends 0 3 (length text.now) at to result }
{
    if let Some(end) = marks::optional(text, at, Key::End) {
        return Ok(Read {
            next: end.next,
            end: to,
            names: 0,
        });
    }
    let first = statement(text, tape, at, to, left)?;
    more_statements(text, tape, first.next, first.end, left)
}
