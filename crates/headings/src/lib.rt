// The headings of a tape's blocks, gathered into rows; what a call wants by them, and what it gives, in number.
// Cost: gathering passes over the tape once for each row; a heading is at most 48 words; a call's words are passed three times.
#![tactic(auto)]

ghost use Rattle.std.specs.Prelude.{◌≡◌, ◌+◌, ◌<◌, ◌≤◌, ℕ, Bool, length, filter, drop, get_or, eqb};
ghost use Rattle.rules.specs.Text.{pick};
ghost use Rattle.tape.specs.Layout.{kind_of, head_in, value_of, GENERIC};
ghost use Rattle.tape.specs.Kinds.{code as kind_code};
ghost use Rattle.tape.specs.Written.{put};
ghost use Rattle.sweep.specs.Sweep.{heading, headings, firsts, titles, leading, heading_at, generics_given, in_call, given, counts_fit, Rows};
ghost use Rattle.headings.specs.Callee.{code, Known, wanted};

use rules::Gate;
use sweep::Heading;
use tape::Kind;

// The headings of a tape's blocks.
#[derive(Clone, Copy)]
pub struct Headings<'a> {
    // The words that name blocks, generics and ports, from place 4 on.
    pub words: &'a [u32],
    // Where among them each block's heading begins.
    pub firsts: &'a [usize],
    pub ghost rows: { Rows words.now firsts.now },
}

// What a call names: a primitive by its kind, or a block by its number.
#[derive(Clone, Copy, PartialEq, Eq, Debug)]
pub enum Callee {
    Primitive(u16),
    Block(usize),
}

impl Callee {
    // Its number in a word of the tape.
    pub fn code(self) -> usize
        requires { Known self }
        ensures { (result ≡ code self) × (result < 128) }
    {
        match self {
            Callee::Primitive(kind) => usize::from(kind),
            Callee::Block(block) => 10 + block,
        }
    }
}

fn is_heading(word: u32) -> bool
    ensures { result ≡ heading word }
{
    let kind = tape::kind_of(word);
    Kind::Body.code() < kind && kind < Kind::Var.code()
}

// The wanted words of a tape, kept in a row from a place on; where the next one would stand.
// Rows are lent and may be shorter than what is gathered: what lies past them is counted and not kept, so no `zip` ends it.
fn gather<F: Fn(u32) -> bool>(tape: &[u32], rows: &mut [u32], from: usize, wanted: F) -> usize
    requires { (F.IsAlwaysCallable wanted) × (from ≤ 4) }
    ensures { (p : ℕ → Bool) → ((w : ℕ) (b : Bool) → F.post wanted w b → b ≡ p w) → (rows.new ≡ put rows.old from (filter p tape.now)) × (result ≡ from + length (filter p tape.now)) }
{
    let mut next = from;
    for word in tape {
        if wanted(*word) {
            tape::keep(rows, next, *word);
            next += 1;
        }
    }
    next
}

// The words that name blocks, generics and ports, from place 4 on: before them four words stand for a primitive's ports (sweep specs/Sweep).
pub fn gather_heads(tape: &[u32], heads: &mut [u32])
    ensures { heads.new ≡ put heads.old 4 (headings tape.now) }
{
    gather(tape, heads, 4, is_heading);
}

// The words that name blocks; their number.
pub fn gather_titles(tape: &[u32], rows: &mut [u32]) -> usize
    ensures { (rows.new ≡ put rows.old 0 (titles tape.now)) × (result ≡ length (titles tape.now)) }
{
    gather(tape, rows, 0, |word| tape::is(word, Kind::Block))
}

// Where each block's heading begins among the headings.
// Two places are counted, since a block's place is kept and a generic's or port's is only passed: a chain of adapters is no plainer.
pub fn gather_firsts(tape: &[u32], places: &mut [usize])
    ensures { places.new ≡ put places.old 0 (firsts 4 tape.now) }
{
    let mut next: usize = 4;
    let mut blocks: usize = 0;
    for word in tape {
        if is_heading(*word) {
            if tape::is(*word, Kind::Block) {
                tape::keep(places, blocks, next);
                blocks += 1;
            }
            next += 1;
        }
    }
}

// The words from a place on.
fn rest(words: &[u32], from: usize) -> &[u32]
    ensures { result.now ≡ drop from words.now }
{
    words.get(from..).unwrap_or(&[])
}

// How many words of a kind stand first.
fn leading(words: &[u32], kind: Kind) -> usize
    ensures counts { result ≡ leading (kind_code kind) words.now }
    ensures most { result ≤ length words.now }
{
    words
        .iter()
        .take_while(|word| tape::is(**word, kind))
        .count()
}

impl Headings<'_> {
    // The word at a place among the headings; past the last there is none.
    pub fn word(&self, at: usize) -> u32
        ensures { result ≡ get_or self.now.words.now at 0 }
    {
        self.words.get(at).copied().unwrap_or(0)
    }

    // Where a block's heading begins.
    fn first(&self, block: usize) -> usize
        ensures { (result ≡ get_or self.now.firsts.now block 0) × (result ≤ 3140) }
    {
        self.firsts.get(block).copied().unwrap_or(0)
    }

    // Whether a block has generics: they come first after its name.
    pub fn has_generics(&self, block: usize) -> bool
        ensures { result ≡ eqb (kind_of (get_or self.now.words.now (get_or self.now.firsts.now block 0 + 1) 0)) GENERIC }
    {
        tape::is(self.word(self.first(block) + 1), Kind::Generic)
    }

    // The heading whose block's name stands at a place.
    fn heading_at(&self, at: usize) -> Heading
        requires { at ≤ 3140 }
        ensures { result ≡ heading_at self.now.words.now at }
    {
        let generics = leading(rest(self.words, at + 1), Kind::Generic);
        let inputs = leading(rest(self.words, at + 1 + generics), Kind::In);
        let outputs = leading(rest(self.words, at + 1 + generics + inputs), Kind::Out);
        Heading {
            generics,
            inputs,
            outputs,
            want: at + 1 + generics,
        }
    }

    // What a call wants; a primitive's ports stand at places 0 to 3, before the headings (sweep specs/Sweep).
    pub fn heading_of(&self, callee: Callee) -> Heading
        ensures { result ≡ wanted self.now.words.now self.now.firsts.now callee }
    {
        match callee {
            Callee::Primitive(kind) => Heading {
                generics: 0,
                inputs: Gate::inputs(kind),
                outputs: 1,
                want: 0,
            },
            Callee::Block(block) => self.heading_at(self.first(block)),
        }
    }
}

// How many words a bracket holds; other words hold none.
#[tactic(auto, unfolding(rules::specs::Text::pick))]
fn words_inside(word: u32) -> usize
    ensures { result ≡ pick (eqb (kind_of word) 2) (value_of word) 0 }
{
    if tape::is(word, Kind::Bracket) {
        tape::value_of(word)
    } else {
        0
    }
}

// How many generics the words after a call's name give: the first words of expressions that stand in no bracket.
// A first word has head 0 or 1: the layout of a tape's word is that of tape specs/Layout. Brackets change what counts, so it is a loop.
fn generics_given(words: &[u32]) -> usize
    ensures { result ≡ generics_given 0 words.now }
{
    let mut given: usize = 0;
    let mut inside: usize = 0;
    for word in words {
        if Kind::Bracket.code() < tape::kind_of(*word) {
            return given;
        }
        if 0 < inside {
            inside -= 1;
        } else {
            given += usize::from(tape::head_of(*word) < 2);
            inside = words_inside(*word);
        }
    }
    given
}

// Whether a word stands in a call, after its name.
#[tactic(auto, unfolding(sweep::specs::Sweep::in_call, rules::specs::Text::pick))]
fn in_call(word: u32) -> bool
    ensures { result ≡ in_call (kind_of word) }
{
    !tape::is(word, Kind::Call) && tape::kind_of(word) < Kind::Loop.code()
}

// How many arguments of a kind the words after a call's name give.
fn arguments_given(words: &[u32], wanted: Kind) -> usize
    ensures { result ≡ given (kind_code wanted) words.now }
{
    words
        .iter()
        .take_while(|word| in_call(**word))
        .filter(|word| tape::is(**word, wanted))
        .count()
}

// Whether the words after a call's name give what a heading wants, in number.
pub fn counts_fit(words: &[u32], heading: Heading) -> bool
    ensures { result ≡ counts_fit heading words.now }
{
    generics_given(words) == heading.generics
        && arguments_given(words, Kind::Input) == heading.inputs
        && arguments_given(words, Kind::Output) == heading.outputs
}
