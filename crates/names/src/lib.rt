// Names: answers 6 to 9 (01, "Numbers of the answers"), and every name of a tape becomes the number of its declaration.
// Cost: a name is compared with at most 48 declared ones, and a block's or a call's name with at most 10 primitives and 64 blocks;
// a call's words are looked at three times more, and its heading's at most 48 words once.
#![tactic(auto)]

ghost use Rattle.std.specs.Prelude.{◌≡◌, ◌||◌, List, ℕ, ◌+◌, ◌<◌, ◌≤◌, max, length, take, drop, get_or, set, eqb, IfOk};
ghost use Rattle.rules.specs.Syntax.{Spelled};
ghost use Rattle.rules.specs.Names.{find};
ghost use Rattle.tape.specs.Layout.{kind_of};
ghost use Rattle.sweep.specs.Resolves.{Holds, Readable, Resolves};
ghost use Rattle.sweep.specs.Spelling.{place_of, name_of, scope_in, valued};
ghost use Rattle.sweep.specs.Sweep.{heading_of, name_step, argument_step, index_step, callee_in, call_step, block_step, declare_step, turn, sweep, main_in, Tells, Says, Answers, Swept, state_of, index_or_none, start, after, called, argued, indexed, begun, declares};
ghost use Rattle.headings.specs.Callee.{Calls};

use headings::{Callee, Headings};
use rules::{Reason, Refusal};
use sweep::{Spot, Step};
use tape::Kind;

// The word with another value; `as` keeps it, since it is below 2^25.
fn with_value(word: u32, value: usize) -> u32
    requires { value < 33554432 }
    ensures { result ≡ valued word value }
{
    word / 33554432 * 33554432 + value as u32
}

// A refusal at a name's place.
fn refusal(reason: Reason, word: u32) -> Refusal
    ensures { result ≡ record { reason = reason; place = place_of word } }
{
    Refusal {
        reason,
        place: spellings::place_of(word),
    }
}

// The first words of a row, as many as are wanted or there are.
fn front(row: &[u32], count: usize) -> &[u32]
    ensures { result.now ≡ take count row.now }
{
    row.get(..count).unwrap_or(row)
}

// The names that a block declared before a word.
#[derive(Clone, Copy)]
struct Scope<'a> {
    // The text that spells them.
    text: &'a [u8],
    words: &'a [u32],
    // Where on the tape the loops over each end.
    until: &'a [usize],
    ghost few: { length words.now ≤ 48 },
}

impl Scope<'_> {
    // The number of a declared name.
    fn find(&self, word: u32) -> Result<usize, Refusal>
        ensures rules { Answers (find (scope_in self.now.text.now self.now.words.now) (name_of self.now.text.now word)) result }
        ensures there { IfOk result (λ k. k < length self.now.words.now) }
    {
        let unknown = refusal(Reason::WrongName, word);
        let name = spellings::letters(self.text, word);
        spellings::find(self.text, self.words, name).ok_or(unknown)
    }

    // What becomes of a name in an expression at a place of the tape: the number of its declaration.
    fn in_expression(&self, at: usize, word: u32) -> Result<usize, Refusal>
        ensures { Tells (name_step self.now.text.now at self.now.words.now self.now.until.now word) result }
    {
        let k = self.find(word)?;
        let ends = self.until.get(k).copied().unwrap_or(0);
        if !spellings::stands(self.words[k], at, ends) {
            return Err(refusal(Reason::WrongName, word));
        }
        Ok(k)
    }

    // What becomes of a loop's index.
    fn as_index(&self, word: u32) -> Result<usize, Refusal>
        ensures { Tells (index_step self.now.text.now self.now.words.now word) result }
    {
        let k = self.find(word)?;
        if !spellings::is_index(self.words[k]) {
            return Err(refusal(Reason::WrongName, word));
        }
        Ok(k)
    }

    // What becomes of an argument's name, where `port` is the word of the port that it is for: a wire has head 0 (tape specs/Layout).
    fn as_argument(&self, port: u32, word: u32) -> Result<usize, Refusal>
        ensures { Tells (argument_step self.now.text.now self.now.words.now port word) result }
    {
        let k = self.find(word)?;
        let head = tape::head_of(word);
        if !spellings::sort_fits(head, self.words[k]) {
            return Err(refusal(Reason::WrongName, word));
        }
        if !spellings::shape_fits(head, self.words[k], tape::head_of(port) == 0) {
            return Err(refusal(Reason::WrongShape, word));
        }
        Ok(k)
    }

    // A name in an expression.
    fn on_name(&self, at: usize, word: u32, spot: Spot) -> Result<Step, Refusal>
        ensures { (row : List ℕ) → Says (after (name_step self.now.text.now at self.now.words.now self.now.until.now word) (λ k. (valued word k, state_of row self.now.until.now spot))) row self.now.until.now result }
    {
        let k = self.in_expression(at, word)?;
        Ok(Step {
            word: with_value(word, k),
            spot,
        })
    }

    // An argument's name: the next argument is for the next port.
    fn on_argument(&self, port: u32, word: u32, spot: Spot) -> Result<Step, Refusal>
        ensures { (row until : List ℕ) → Says (after (argument_step self.now.text.now self.now.words.now port word) (λ k. (argued (state_of row until spot) word k))) row until result }
    {
        let k = self.as_argument(port, word)?;
        Ok(Step {
            word: with_value(word, k),
            spot: Spot {
                want: spot.want.min(3140) + 1,
                ..spot
            },
        })
    }

    // A loop's index: the next body is that of its loop.
    fn on_index(&self, word: u32, spot: Spot) -> Result<Step, Refusal>
        ensures { (row until : List ℕ) → Says (after (index_step self.now.text.now self.now.words.now word) (λ k. (indexed (state_of row until spot) word k))) row until result }
    {
        let k = self.as_index(word)?;
        Ok(Step {
            word: with_value(word, k),
            spot: Spot {
                index: Some(k),
                ..spot
            },
        })
    }
}

// The blocks of a tape.
#[derive(Clone, Copy)]
struct Blocks<'a, 'h> {
    // The text that spells their names.
    text: &'a [u8],
    headings: Headings<'h>,
    // The words that name them.
    titles: &'a [u32],
    ghost few: { length titles.now ≤ 64 },
}

// What a call's name stands for: a primitive, or else a block.
fn callee(blocks: &Blocks, word: u32) -> Result<Callee, Refusal>
    ensures { Calls (callee_in blocks.now.text.now blocks.now.titles.now word) result }
{
    let name = spellings::letters(blocks.text, word);
    if let Some(kind) = spellings::primitive(name) {
        return Ok(Callee::Primitive(kind));
    }
    match spellings::find(blocks.text, blocks.titles, name) {
        Some(block) => Ok(Callee::Block(block)),
        None => Err(refusal(Reason::WrongName, word)),
    }
}

// What a call's name stands for, if the words after it give what its heading wants, in number.
fn as_callee(blocks: &Blocks, word: u32, rest: &[u32]) -> Result<Callee, Refusal>
    ensures { Calls (call_step blocks.now.text.now blocks.now.headings.words.now blocks.now.headings.firsts.now blocks.now.titles.now word rest.now) result }
{
    let callee = callee(blocks, word)?;
    if !headings::counts_fit(rest, blocks.headings.heading_of(callee)) {
        return Err(refusal(Reason::WrongShape, word));
    }
    Ok(callee)
}

// The loops over an index end at `end` at the earliest.
fn enter(until: &mut [usize], index: Option<usize>, end: usize)
    requires { length until.old ≤ 48 }
    ensures { until.new ≡ set until.old (index_or_none index) (max (get_or until.old (index_or_none index) 0) end) }
{
    if let Some(index) = index {
        let known = until.get(index).copied().unwrap_or(0);
        tape::keep(until, index, known.max(end));
    }
}

fn is_argument(word: u32) -> bool
    ensures { result ≡ (eqb (kind_of word) 4 || eqb (kind_of word) 5) }
{
    tape::is(word, Kind::Input) || tape::is(word, Kind::Output)
}

// A call's name: its arguments are for its ports.
fn on_callee(blocks: &Blocks, word: u32, rest: &[u32], spot: Spot) -> Result<Step, Refusal>
    ensures { (scope until : List ℕ) → Says (after (call_step blocks.now.text.now blocks.now.headings.words.now blocks.now.headings.firsts.now blocks.now.titles.now word rest.now) (λ c. (called (heading_of blocks.now.headings.words.now blocks.now.headings.firsts.now c) (state_of scope until spot) word c))) scope until result }
{
    let callee = as_callee(blocks, word, rest)?;
    let heading = blocks.headings.heading_of(callee);
    Ok(Step {
        word: with_value(word, spellings::place_of(word) * 128 + callee.code()),
        spot: Spot {
            want: heading.want,
            ..spot
        },
    })
}

// A block's name: none of its own names is declared yet.
fn on_block(blocks: &Blocks, word: u32, spot: Spot) -> Result<Step, Refusal>
    ensures { (scope until : List ℕ) → Says (after (block_step blocks.now.text.now (take spot.blocks blocks.now.titles.now) word) (λ _. (begun (state_of scope until spot) word))) scope until result }
{
    let before = front(blocks.titles, spot.blocks);
    if spellings::taken(blocks.text, before, spellings::letters(blocks.text, word)) {
        return Err(refusal(Reason::DeclaredTwice, word));
    }
    Ok(Step {
        word,
        spot: Spot {
            count: 0,
            index: None,
            want: spot.want,
            blocks: spot.blocks.min(64) + 1,
        },
    })
}

// A name that is declared.
fn on_declared(text: &[u8], scope: &mut [u32], word: u32, spot: Spot) -> Result<Step, Refusal>
    ensures { (until : List ℕ) → Says (after (declare_step text.now (take spot.count scope.old) word) (λ _. (declares (state_of scope.old until spot) word))) scope.new until result }
{
    let before = front(scope, spot.count);
    if spellings::declared_before(text, before, spellings::letters(text, word)) {
        return Err(refusal(Reason::DeclaredTwice, word));
    }
    tape::keep(scope, spot.count, word);
    Ok(Step {
        word,
        spot: Spot {
            count: spot.count.min(48) + 1,
            ..spot
        },
    })
}

// One word of the tape, at a place. The lent rows of names and of loops' ends stay apart from the spot, which is copied at each word.
fn take_word(
    blocks: &Blocks,
    tape: &[u32],
    at: usize,
    scope: &mut [u32],
    until: &mut [usize],
    spot: Spot,
) -> Result<Step, Refusal>
    requires { (at < length tape.now) × (length scope.old ≤ 48) × (length until.old ≤ 48) }
    ensures { Says (turn blocks.now.text.now blocks.now.headings.words.now blocks.now.headings.firsts.now blocks.now.titles.now at (state_of scope.old until.old spot) (get_or tape.now at 0) (drop (at + 1) tape.now)) scope.new until.new result }
{
    let word = tape[at];
    let before = front(scope, spot.count);
    let names = Scope {
        text: blocks.text,
        words: before,
        until,
    };
    if tape::is(word, Kind::Name) {
        return names.on_name(at, word, spot);
    }
    if tape::is(word, Kind::Call) {
        return on_callee(blocks, word, &tape[at + 1..], spot);
    }
    if is_argument(word) {
        let port = blocks.headings.word(spot.want);
        return names.on_argument(port, word, spot);
    }
    if tape::is(word, Kind::Index) {
        return names.on_index(word, spot);
    }
    if tape::is(word, Kind::Body) {
        enter(until, spot.index, at + 1 + tape::value_of(word));
        return Ok(Step { word, spot });
    }
    if tape::is(word, Kind::Block) {
        return on_block(blocks, word, spot);
    }
    if Kind::Block.code() < tape::kind_of(word) {
        return on_declared(blocks.text, scope, word, spot);
    }
    Ok(Step { word, spot })
}

// Sweeps over the words of a tape.
fn sweep_words(
    blocks: &Blocks,
    tape: &mut [u32],
    scope: &mut [u32],
    until: &mut [usize],
) -> Result<(), Refusal>
    requires { (length scope.old ≤ 48) × (length until.old ≤ 48) }
    ensures { Swept (sweep blocks.now.text.now blocks.now.headings.words.now blocks.now.headings.firsts.now blocks.now.titles.now 0 (start scope.old until.old) tape.old) tape.new result }
{
    let mut spot = Spot {
        count: 0,
        index: None,
        want: 0,
        blocks: 0,
    };
    for at in 0..tape.len() {
        let step = take_word(blocks, tape, at, scope, until, spot)?;
        tape[at] = step.word;
        spot = step.spot;
    }
    Ok(())
}

// 9: main is there, and has no generics.
fn main_block(blocks: &Blocks) -> Result<usize, Refusal>
    ensures { Answers (main_in blocks.now.text.now blocks.now.headings.words.now blocks.now.headings.firsts.now blocks.now.titles.now) result }
{
    let titles = blocks.titles;
    let Some(main) = spellings::find(blocks.text, titles, b"main") else {
        return Err(Refusal {
            reason: Reason::NoMain,
            place: blocks.text.len(),
        });
    };
    if blocks.headings.has_generics(main) {
        return Err(refusal(Reason::NoMain, titles[main]));
    }
    Ok(main)
}

// Checks every name of a tape (6 to 9), and makes it the number of its declaration.
pub fn resolve(text: &[u8], tape: &mut [u32], end: usize) -> Result<usize, Refusal>
    requires { Readable text.now tape.old end }
    ensures { (Bs : Spelled) → Holds text.now tape.old end Bs → Resolves text.now Bs tape.old tape.new result }
{
    // No heap: rows of fixed length, for the most that a text can declare.
    let mut heads = [0u32; 3140];
    let mut firsts = [0usize; 64];
    let mut titles = [0u32; 64];
    let words = &mut tape[..end];
    headings::gather_heads(words, &mut heads);
    headings::gather_firsts(words, &mut firsts);
    let count = headings::gather_titles(words, &mut titles);
    let headings = Headings {
        words: &heads,
        firsts: &firsts,
    };
    let blocks = Blocks {
        text,
        headings,
        titles: &titles[..count],
    };
    sweep_words(&blocks, words, &mut [0; 48], &mut [0; 48])?;
    main_block(&blocks)
}
