// Where each block of a resolved program begins on the tape.
#![tactic(auto)]

ghost use Rattle.std.specs.Prelude.{◌≡◌, ℕ, ◌+◌, List, length};
ghost use Rattle.rules.specs.Syntax.{Block, Callee, Program};
ghost use Rattle.tape.specs.Encoding.{block_w};
ghost use Rattle.tape.specs.Resolved.{slot_w, meant_w};
ghost use Rattle.tape.specs.Written.{put};
ghost use Rattle.unfold.specs.Header.{HereBlock, WrittenBlock};
ghost use Rattle.unfold.specs.Shelf.{Shelf};
ghost use Rattle.places.specs.Held.{Held, Resolved};
ghost use Rattle.places.specs.Bodies.{FirstBody, WrittenBody};
ghost use Rattle.places.specs.Starts.{starts};

use tape::Kind;

// The first word of a body, of those from `at` on. Apart from `unfold::after_generics`: see there.
fn first_body(tape: &[u32], at: usize) -> usize
    requires { WrittenBody tape.now at }
    ensures { (body : ℕ) → FirstBody tape.now at body → result ≡ body }
{
    for i in at..tape.len() {
        if tape::is(tape[i], Kind::Body) {
            return i;
        }
    }
    tape.len()
}

// The place after the block whose words begin at `at`: its body's word, the last of its own, says how many are inside.
fn after_block(tape: &[u32], at: usize, end: usize) -> usize
    requires { WrittenBlock tape.now at end }
    ensures { (B : Block ℕ Callee) → HereBlock tape.now at end B → result ≡ at + length (block_w slot_w meant_w B) }
{
    let body = first_body(tape, at + 1);
    unfold::body_at(tape, body).end
}

// Where the words of each block begin, of the `end` words that are used. A fixed array: the project uses no heap.
pub fn places(tape: &[u32], end: usize, into: &mut [usize; 64])
    requires { Resolved tape.now end × (length into.old ≡ 64) }
    ensures by_index { (s : List ℕ) (P : Program) → Held s tape.now end P → into.new ≡ put into.old 0 (starts 0 P.blocks) }
    ensures by_index_2 { (s : List ℕ) (P : Program) → Held s tape.now end P → Shelf (length s) P tape.now into.new end }
{
    let mut at: usize = 0;
    for k in 0..64 {
        if at >= end {
            return;
        }
        into[k] = at;
        at = after_block(tape, at, end);
    }
}
