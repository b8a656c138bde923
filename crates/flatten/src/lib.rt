// Pebble text to a netlist.
#![tactic(auto)]

ghost use Rattle.std.specs.Prelude.{◌≡◌, List, ℕ, ◌≤◌, length};
ghost use Rattle.rules.specs.Text.{zeros};
ghost use Rattle.rules.specs.Outcome.{ok};
ghost use Rattle.rules.specs.Syntax.{Spelled, Program};
ghost use Rattle.rules.specs.Grammar.{grammar};
ghost use Rattle.rules.specs.Unfold.{unfold_main};
ghost use Rattle.rules.specs.Flatten.{answer, flatten};
ghost use Rattle.sweep.specs.Resolves.{Holds};
ghost use Rattle.places.specs.Held.{Held};
ghost use Rattle.unfolding.specs.Nets.{MainHeld};
ghost use Rattle.flatten.specs.Promise.{told, seen, Flattens};
ghost use Rattle.flatten.specs.Ways.{WasRead, after-reading};

use rules::{Reason, Refusal};

// The steps of the resolved program of the first `end` words: 10 to 18. The lent netlist holds zeros.
fn flatten_named(
    work: &[u32],
    end: usize,
    main: usize,
    netlist: &mut [u16],
) -> Result<usize, Refusal>
    requires { MainHeld work.now end main × (netlist.old ≡ zeros (length netlist.old)) × (5124 ≤ length netlist.old) }
    ensures { (s : List ℕ) (P : Program) → Held s work.now end P → P.main ≡ main
        → seen (told result) netlist.new ≡ answer (length netlist.old) (unfold_main P) }
{
    let steps = unfolding::unfold_main(work, end, main, netlist);
    if steps.is_err() {
        clear::all(netlist);
    }
    steps
}

// Of the text that was read onto the first `end` words: 6 to 9, and on.
fn flatten_read(
    text: &[u8],
    work: &mut [u32],
    end: usize,
    netlist: &mut [u16],
) -> Result<usize, Refusal>
    requires { WasRead text.now work.old end × (netlist.old ≡ zeros (length netlist.old)) × (5124 ≤ length netlist.old) }
    ensures { (Bs : Spelled) → grammar text.now ≡ ok Bs → Holds text.now work.old end Bs
        → seen (told result) netlist.new ≡ answer (length netlist.old) (after-reading text.now Bs) }
{
    let main = names::resolve(text, work, end)?;
    flatten_named(work, end, main, netlist)
}

// Into a netlist that holds zeros.
#[tactic(auto, using(crate::proofs::Short::short_netlist))]
fn flatten_clean(text: &[u8], work: &mut [u32], netlist: &mut [u16]) -> Result<usize, Refusal>
    requires { netlist.old ≡ zeros (length netlist.old) }
    ensures { seen (told result) netlist.new ≡ flatten text.now (length work.old) (length netlist.old) }
{
    if netlist.len() < 5124 {
        return Err(Refusal {
            reason: Reason::ShortBuffer,
            place: 0,
        });
    }
    let program = grammar::read_program(text, work)?;
    flatten_read(text, work, program.end, netlist)
}

// A text's netlist, and how many steps it took; or why it is refused, and where, and then the lent netlist holds zeros. The work table is
// left all zeros.
pub fn flatten(text: &[u8], work: &mut [u32], netlist: &mut [u16]) -> Result<usize, Refusal>
    ensures { Flattens text.now work.old netlist.old (told result) work.new netlist.new }
{
    clear::all(netlist);
    let steps = flatten_clean(text, work, netlist);
    clear::all(work);
    steps
}
