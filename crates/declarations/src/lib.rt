// What a block declares: generics, ports and VARs, onto the tape.
#![tactic(auto)]

ghost use Rattle.std.specs.Prelude.{[], ◌∷◌, ◌+◌, ◌<◌, length, IfOk};
ghost use Rattle.rules.specs.Syntax.{num};
ghost use Rattle.rules.specs.Readers.{spelling, if_next, give, rest};
ghost use Rattle.rules.specs.Grammar.{declared as declared_at, a_type, port as port_at, local as local_at, generics as generics_at, ports as ports_at};
ghost use Rattle.tape.specs.Layout.{name_w, VAR, spelt};
ghost use Rattle.tape.specs.Kinds.{code};
ghost use Rattle.tape.specs.Encoding.{list_w, sort_w, decl_w, generic_w};
ghost use Rattle.tape.specs.Written.{Gives, none};
ghost use Rattle.marks.specs.Marks.{Tells};
ghost use Rattle.marks.specs.Room.{Room, Spends, Named};
ghost use Rattle.lists.specs.Items.{from, and-one, Reads, Lists, laws_of, comma-seen, var-seen};
ghost use Rattle.declarations.specs.Rows.{generics-row, ports-row, locals-row};
ghost use Rattle.marks.specs.declared.Key.TheVariants.{Var, Begin, Close, Comma, Right};
ghost use Rattle.declarations.specs.Kept.{Below, Vectors, Fits};

use lists::Item;
use marks::{Key, Spot};
use rules::{Reason, Refusal};
use tape::{Kind, Read};

// A name that is declared, where `count` stand before it in its block.
#[tactic(auto, using(crate::specs::Parts::allowed, crate::specs::Parts::over))]
fn declared(text: &[u8], at: usize, count: usize) -> Result<Spot, Refusal>
    ensures tells { Tells (spelling text.now) (declared_at text.now count at) result }
    ensures named { IfOk result (Named (length text.now) at) }
    ensures below { Below 48 count result }
{
    let name = marks::name(text, at)?;
    if count < 48 {
        return Ok(name);
    }
    Err(Refusal {
        reason: Reason::TooMany,
        place: name.place,
    })
}

// A generic of a block. Here and below, `before` is what stands before the part: where it ends, and how many names it declares; the answer's `names` count it too.
fn generic(text: &[u8], tape: &mut [u32], before: Read) -> Result<Read, Refusal>
    requires { Room 0 text.now tape.old before.next before.end }
    ensures gives { Gives (and-one before.names) generic_w (declared_at text.now before.names before.next) tape.old before.end tape.new result }
    ensures spends { Spends 1 0 (length text.now) before.next before.end result }
{
    let name = declared(text, before.next, before.names)?;
    tape::store_name(tape, before.end, Kind::Generic, 0, name.place, name.next);
    Ok(Read {
        next: name.next,
        end: before.end + 1,
        names: before.names + 1,
    })
}

// A generic, as an item of a list.
#[derive(Clone, Copy)]
struct OneGeneric;

impl Item for OneGeneric {
    ghost reads = { λ _. Reads (generic_w) (λ s k _. declared_at s k) };

    ghost lists = { λ _. Lists (generic_w) (λ s k _. declared_at s k) "," ")" };

    ghost room = { 0 };

    ghost SEPARATOR = { Comma };

    ghost CLOSE = { Close };

    ghost seen = { comma-seen };

    ghost laws = { λ _. laws_of _ _ _ _ generics-row };

    const SEPARATOR: Key = Key::Comma;

    const CLOSE: Key = Key::Close;

    fn read(
        self,
        text: &[u8],
        tape: &mut [u32],
        before: Read,
        _place: usize,
    ) -> Result<Read, Refusal> {
        generic(text, tape, before)
    }
}

// The generics of a block, if there are any.
pub fn generics(text: &[u8], tape: &mut [u32], at: usize, to: usize) -> Result<Read, Refusal>
    requires { Room 0 text.now tape.old at to }
    ensures gives { Gives (from 0) (list_w generic_w) (generics_at text.now at) tape.old to tape.new result }
    ensures spends { Spends 0 0 (length text.now) at to result }
{
    let start = Read {
        next: at,
        end: to,
        names: 0,
    };
    let Some(Spot { next, .. }) = marks::optional(text, at, Key::Open) else {
        return Ok(start);
    };
    let first = generic(text, tape, Read { next, ..start })?;
    lists::more(text, tape, first, OneGeneric)
}

// (a..b) OF WIRE, after VECTOR.
fn vector(text: &[u8], tape: &mut [u32], at: usize, to: usize) -> Result<Read, Refusal>
    requires { Room 14 text.now tape.old at to }
    ensures vectors { Vectors text.now at tape.old to tape.new result }
    ensures spends { Spends 0 3 (length text.now) at to result }
{
    let open = marks::mark(text, at, Key::Open)?;
    let read = expressions::bounds(text, tape, open.next, to)?;
    let close = marks::mark(text, read.next, Key::Close)?;
    let of = marks::mark(text, close.next, Key::Of)?;
    let wire = marks::mark(text, of.next, Key::Wire)?;
    Ok(Read {
        next: wire.next,
        ..read
    })
}

// A type, of this name: WIRE or VECTOR (a..b) OF WIRE.
fn typed(
    text: &[u8],
    tape: &mut [u32],
    at: usize,
    to: usize,
    kind: Kind,
    name: Spot,
) -> Result<Read, Refusal>
    requires { Room 10 text.now tape.old at to × Fits name }
    ensures gives { Gives none (sort_w name_w (code kind) (spelt name.place name.next)) (a_type text.now at) tape.old to tape.new result }
    ensures spends { Spends 0 2 (length text.now) at to result }
{
    if let Some(word) = marks::optional(text, at, Key::Vector) {
        tape::store_name(tape, to, kind, 1, name.place, name.next);
        return vector(text, tape, word.next, to + 1);
    }
    let wire = marks::mark(text, at, Key::Wire)?;
    tape::store_name(tape, to, kind, 0, name.place, name.next);
    Ok(Read {
        next: wire.next,
        end: to + 1,
        names: 0,
    })
}

// A port: a name, a colon and a type.
fn port(text: &[u8], tape: &mut [u32], before: Read, kind: Kind) -> Result<Read, Refusal>
    requires { Room 8 text.now tape.old before.next before.end }
    ensures gives { Gives (and-one before.names) (decl_w name_w (code kind)) (port_at text.now before.names 0 before.next) tape.old before.end tape.new result }
    ensures spends { Spends 0 4 (length text.now) before.next before.end result }
{
    let name = declared(text, before.next, before.names)?;
    let colon = marks::mark(text, name.next, Key::Colon)?;
    let read = typed(text, tape, colon.next, before.end, kind, name)?;
    let names = before.names + 1;
    Ok(Read { names, ..read })
}

// A port of this kind, as an item of a list.
#[derive(Clone, Copy)]
struct OnePort {
    kind: Kind,
}

impl Item for OnePort {
    ghost reads = { λ p. Reads (decl_w name_w (code p.kind)) port_at };

    ghost lists = { λ p. Lists (decl_w name_w (code p.kind)) port_at "," "]" };

    ghost room = { 7 };

    ghost SEPARATOR = { Comma };

    ghost CLOSE = { Right };

    ghost seen = { comma-seen };

    ghost laws = { λ p. laws_of _ _ _ _ (λ s. ports-row s (code p.kind)) };

    const SEPARATOR: Key = Key::Comma;

    const CLOSE: Key = Key::Right;

    fn read(
        self,
        text: &[u8],
        tape: &mut [u32],
        before: Read,
        _place: usize,
    ) -> Result<Read, Refusal> {
        port(text, tape, before, self.kind)
    }
}

// Ports in square brackets.
pub fn ports(text: &[u8], tape: &mut [u32], before: Read, kind: Kind) -> Result<Read, Refusal>
    requires { Room 7 text.now tape.old before.next before.end }
    ensures gives { Gives (from before.names) (list_w (decl_w name_w (code kind))) (ports_at text.now before.names before.next) tape.old before.end tape.new result }
    ensures spends { Spends 0 2 (length text.now) before.next before.end result }
{
    let Spot { next, .. } = marks::mark(text, before.next, Key::Left)?;
    if let Some(right) = marks::optional(text, next, Key::Right) {
        return Ok(Read {
            next: right.next,
            ..before
        });
    }
    let first = port(text, tape, Read { next, ..before }, kind)?;
    lists::more(text, tape, first, OnePort { kind })
}

// The type of a declaration, of this name: NUM, or as of a port.
fn sort(text: &[u8], tape: &mut [u32], at: usize, to: usize, name: Spot) -> Result<Read, Refusal>
    requires { Room 10 text.now tape.old at to × Fits name }
    ensures gives { Gives none (sort_w name_w VAR (spelt name.place name.next)) (if_next text.now "NUM" (give num) (a_type text.now) at) tape.old to tape.new result }
    ensures spends { Spends 0 1 (length text.now) at to result }
{
    if let Some(word) = marks::optional(text, at, Key::Num) {
        tape::store_name(tape, to, Kind::Var, 2, name.place, name.next);
        return Ok(Read {
            next: word.next,
            end: to + 1,
            names: 0,
        });
    }
    typed(text, tape, at, to, Kind::Var, name)
}

// A declaration, after VAR.
fn local(text: &[u8], tape: &mut [u32], before: Read) -> Result<Read, Refusal>
    requires { Room 8 text.now tape.old before.next before.end }
    ensures gives { Gives (and-one before.names) (decl_w name_w VAR) (local_at text.now before.names 0 before.next) tape.old before.end tape.new result }
    ensures spends { Spends 0 4 (length text.now) before.next before.end result }
{
    let name = declared(text, before.next, before.names)?;
    let colon = marks::mark(text, name.next, Key::Colon)?;
    let read = sort(text, tape, colon.next, before.end, name)?;
    let semicolon = marks::mark(text, read.next, Key::Semicolon)?;
    Ok(Read {
        next: semicolon.next,
        end: read.end,
        names: before.names + 1,
    })
}

// A declaration, as an item of a list.
#[derive(Clone, Copy)]
struct OneLocal;

impl Item for OneLocal {
    ghost reads = { λ _. Reads (decl_w name_w VAR) local_at };

    ghost lists = { λ _. Lists (decl_w name_w VAR) local_at "VAR" "BEGIN" };

    ghost room = { 5 };

    ghost SEPARATOR = { Var };

    ghost CLOSE = { Begin };

    ghost seen = { var-seen };

    ghost laws = { λ _. laws_of _ _ _ _ locals-row };

    const SEPARATOR: Key = Key::Var;

    const CLOSE: Key = Key::Begin;

    fn read(
        self,
        text: &[u8],
        tape: &mut [u32],
        before: Read,
        _place: usize,
    ) -> Result<Read, Refusal> {
        local(text, tape, before)
    }
}

// Declarations, and BEGIN.
pub fn locals(text: &[u8], tape: &mut [u32], before: Read) -> Result<Read, Refusal>
    requires { Room 5 text.now tape.old before.next before.end }
    ensures gives { Gives (from before.names) (list_w (decl_w name_w VAR)) (rest text.now [] ◌∷◌ (local_at text.now) "VAR" "BEGIN" before.names before.next) tape.old before.end tape.new result }
    ensures spends { Spends 0 5 (length text.now) before.next before.end result }
{
    lists::more(text, tape, before, OneLocal)
}
