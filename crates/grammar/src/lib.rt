// Blocks and whole texts, onto the tape: one pass over the text from its front.
#![tactic(auto)]

ghost use Rattle.std.specs.Prelude.{◌+◌, ◌<◌, length};
ghost use Rattle.rules.specs.Grammar.{a_block, blocks as blocks_at};
ghost use Rattle.tape.specs.Layout.{name_w};
ghost use Rattle.tape.specs.Encoding.{list_w, block_w, callee_w};
ghost use Rattle.tape.specs.Written.{Gives};
ghost use Rattle.marks.specs.Room.{Room, Spends};
ghost use Rattle.marks.specs.declared.Key.TheVariants.{Nothing, Block};
ghost use Rattle.lists.specs.Items.{from, and-one, block-seen, Reads as ItemReads, Lists, laws_of};
ghost use Rattle.grammar.specs.Rows.{blocks-row};
ghost use Rattle.grammar.specs.Titles.{Titles};
ghost use Rattle.grammar.specs.Promise.{Reads, Tries};

use lists::Item;
use marks::{Key, Spot};
use rules::{Reason, Refusal};
use tape::{Kind, Read};

// A block up to its BEGIN, after BLOCK.
fn title(text: &[u8], tape: &mut [u32], at: usize, to: usize) -> Result<Read, Refusal>
    requires { Room 9 text.now tape.old at to }
    ensures titles { Titles text.now at tape.old to tape.new result }
    ensures spends { Spends 0 8 (length text.now) at to result }
{
    let name = marks::name(text, at)?;
    tape::store_name(tape, to, Kind::Block, 0, name.place, name.next);
    let generics = declarations::generics(text, tape, name.next, to + 1)?;
    let inputs = declarations::ports(text, tape, generics, Kind::In)?;
    let outputs = declarations::ports(text, tape, inputs, Kind::Out)?;
    declarations::locals(text, tape, outputs)
}

// A block, after BLOCK, which stands at `place`, where `before.names` blocks stand before it; the answer's `names` count it too.
#[tactic(auto, using(crate::proofs::Limits::limits))]
fn block(text: &[u8], tape: &mut [u32], before: Read, place: usize) -> Result<Read, Refusal>
    requires { Room 9 text.now tape.old before.next before.end }
    ensures gives { Gives (and-one before.names) (block_w name_w callee_w) (a_block text.now before.names place before.next) tape.old before.end tape.new result }
    ensures spends { Spends 0 10 (length text.now) before.next before.end result }
{
    if before.names >= 64 {
        return Err(Refusal {
            reason: Reason::TooMany,
            place,
        });
    }
    let heading = title(text, tape, before.next, before.end)?;
    let body = statements::statements(text, tape, heading.next, heading.end + 1, 8)?;
    let semicolon = marks::mark(text, body.next, Key::Semicolon)?;
    tape::store(tape, heading.end, Kind::Body, 0, body.end - heading.end - 1);
    Ok(Read {
        next: semicolon.next,
        end: body.end,
        names: before.names + 1,
    })
}

// A block, as an item of a list.
#[derive(Clone, Copy)]
struct OneBlock;

impl Item for OneBlock {
    ghost reads = { λ _. ItemReads (block_w name_w callee_w) a_block };

    ghost lists = { λ _. Lists (block_w name_w callee_w) a_block "BLOCK" "" };

    ghost room = { 4 };

    ghost SEPARATOR = { Block };

    ghost CLOSE = { Nothing };

    ghost seen = { block-seen };

    ghost laws = { λ _. laws_of _ _ _ _ blocks-row };

    const SEPARATOR: Key = Key::Block;

    const CLOSE: Key = Key::Nothing;

    fn read(
        self,
        text: &[u8],
        tape: &mut [u32],
        before: Read,
        place: usize,
    ) -> Result<Read, Refusal> {
        block(text, tape, before, place)
    }
}

// A whole text, its words from `to` on: where it ends, where its words end, and how many blocks it has.
pub fn blocks(text: &[u8], tape: &mut [u32], to: usize) -> Result<Read, Refusal>
    requires { Room 4 text.now tape.old 0 to }
    ensures gives { Gives (from 0) (list_w (block_w name_w callee_w)) (blocks_at text.now 0) tape.old to tape.new result }
    ensures spends { Spends 0 15 (length text.now) 0 to result }
{
    let Spot { next, place } = marks::mark(text, 0, Key::Block)?;
    let start = Read {
        next,
        end: to,
        names: 0,
    };
    let first = block(text, tape, start, place)?;
    lists::more(text, tape, first, OneBlock)
}

// As `read_program`, but that a refusal leaves on the table what was read before it.
fn read_onto(text: &[u8], table: &mut [u32]) -> Result<Read, Refusal>
    ensures { Tries text.now table.old result table.new }
{
    if table.len() < 16384 {
        return Err(Refusal {
            reason: Reason::ShortBuffer,
            place: 0,
        });
    }
    if text.len() > 16384 {
        return Err(Refusal {
            reason: Reason::LongText,
            place: 0,
        });
    }
    let read = blocks(text, table, 0)?;
    Ok(Read {
        next: text.len(),
        ..read
    })
}

// A text onto the lent work table, whatever stood there: where the text ends, how many words and how many blocks it has; or a refusal's
// reason and place, of numbers 1 to 5, and the table all zeros.
pub fn read_program(text: &[u8], table: &mut [u32]) -> Result<Read, Refusal>
    ensures { Reads text.now table.old result table.new }
{
    let answer = read_onto(text, table);
    if answer.is_err() {
        clear::all(table);
    }
    answer
}
