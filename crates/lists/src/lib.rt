// The items of a list, one after another, onto the tape.
#![tactic(auto)]

ghost use Rattle.std.specs.Prelude.{ℕ, ◌+◌, ◌<◌, length};
ghost use Rattle.marks.specs.Keys.{code as code_of};
ghost use Rattle.marks.specs.declared.Key.{Key};
ghost use Rattle.marks.specs.Room.{Room, Spends, wide};
ghost use Rattle.lists.specs.Items.{Reading, Listed, ListLaws};

use marks::{Divided, Key, Spot};
use rules::Refusal;
use tape::Read;

// An item of a list: what it is to the grammar, its marks, and its reader.
pub trait Item: Copy {
    ghost reads: { Self → Reading };

    ghost lists: { Self → Listed };

    // The bytes of text that the rest of a list leaves room for.
    ghost room: { ℕ };

    ghost SEPARATOR: { Key };

    ghost CLOSE: { Key };

    const SEPARATOR: Key;

    const CLOSE: Key;

    // Reads an item, after the mark at `place`; where items are counted, `names` is how many there are.
    fn read(
        self,
        text: &[u8],
        tape: &mut [u32],
        before: Read,
        place: usize,
    ) -> Result<Read, Refusal>
        requires { Room (room + wide (code_of SEPARATOR)) text.now tape.old before.next before.end }
        ensures gives { reads self text.now tape.old before place tape.new result }
        ensures spends { Spends (wide (code_of SEPARATOR)) 0 (length text.now) before.next before.end result };

    // The mark that divides is not the end of the text.
    ghost seen: { 0 < wide (code_of SEPARATOR) };

    ghost laws: { (x : Self) → ListLaws (code_of SEPARATOR) (code_of CLOSE) (reads x) (lists x) };
}

// What stands after an item of a list: more of them, and the mark that closes.
pub fn more<I: Item>(text: &[u8], tape: &mut [u32], before: Read, item: I) -> Result<Read, Refusal>
    requires { Room I.room text.now tape.old before.next before.end }
    ensures lists { I.lists item text.now tape.old before tape.new result }
    ensures spends { Spends 0 (wide (code_of I.CLOSE)) (length text.now) before.next before.end result }
{
    let mut read = before;
    loop {
        match marks::separator(text, read.next, I::SEPARATOR, I::CLOSE)? {
            Divided::Last(next) => return Ok(Read { next, ..read }),
            Divided::Another(Spot { next, place }) => {
                read = item.read(text, tape, Read { next, ..read }, place)?;
            }
        }
    }
}
