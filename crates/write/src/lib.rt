// A netlist as flat text, piece by piece into lent memory.
#![tactic(auto)]

ghost use Rattle.std.specs.Prelude.{◌+◌, ◌<◌, ◌≤◌, length, MatchOption};
ghost use Rattle.rules.specs.Flat.{flat_text};
ghost use Rattle.netlist.specs.Answers.{told, its_length};
ghost use Rattle.write.specs.Put.{Put};
ghost use Rattle.write.specs.Memory.{Writes, full, memory_laws};
ghost use Rattle.write.specs.Wrote.{Wrote};

use netlist::Netlist;
use rules::Reason;

pub mod pieces;

use pieces::Pieces;

// A piece of any length; the place after it.
pub fn copy(text: &mut [u8], at: usize, s: &[u8]) -> usize
    requires { at + length s.now ≤ length text.old }
    ensures { Put text.old at s.now result text.new }
{
    let next = at + s.len();
    text[at..next].copy_from_slice(s);
    next
}

// Lent memory, and how much of it is written: both, as the promises speak of the whole memory and of what stands in it so far.
#[derive(Drop)]
struct Memory<'a> {
    text: &'a mut [u8],
    at: usize,
}

impl Pieces for Memory<'_> {
    ghost takes = { Writes };

    ghost refuses = { full };

    ghost laws = { memory_laws };

    // None where there is no room.
    fn piece(&mut self, piece: &[u8]) -> Option<()> {
        let room = self.text.len().checked_sub(self.at)?;
        if room < piece.len() {
            return None;
        }
        self.at = copy(self.text, self.at, piece);
        Some(())
    }
}

// The whole text of a netlist, if there is room: its length.
fn put_text(net: Netlist, text: &mut [u8]) -> Option<usize>
    ensures { let flat = flat_text net.entry.words.now in MatchOption result (length text.old < length flat) (λ n. Put text.old 0 flat n text.new) }
{
    let mut memory = Memory { text, at: 0 };
    pieces::text(net, &mut memory)?;
    Some(memory.at)
}

// Writes a netlist as flat text.
pub fn write(net: &[u16], text: &mut [u8]) -> Result<usize, Reason>
    ensures { Wrote net.now (length text.old) (told its_length result) text.new }
{
    clear::all(text);
    if text.len() < 65536 {
        return Err(Reason::ShortBuffer);
    }
    let net = Netlist::new(net)?;
    // Every text fits, so this one is written.
    put_text(net, text).ok_or(Reason::ShortBuffer)
}
