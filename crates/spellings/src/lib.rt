// The names that words of a tape stand for: their letters, where they are found among others, and what a declared one is.
// Cost: a name is compared with those before it in a row, one after another.
#![tactic(auto)]

ghost use Rattle.std.specs.Prelude.{◌≡◌, map, ◌++◌, take, option_map, eqb};
ghost use Rattle.std.specs.Cmp.Lexicographic.{pointwise};
ghost use Rattle.rules.specs.Text.{is_in};
ghost use Rattle.rules.specs.Names.{is_index};
ghost use Rattle.rules.specs.Primitives.{primitive_names};
ghost use Rattle.sweep.specs.Spelling.{place_of, letters_of, role_in};
ghost use Rattle.sweep.specs.Sweep.{standing, sort_fits, shape_fits, Finds};
ghost use Rattle.spellings.specs.Roles.{meant};

use rules::Gate;
use tape::Kind;

pub fn place_of(word: u32) -> usize
    ensures { result ≡ place_of word }
{
    tape::value_of(word) / 32 % 32768
}

// The letters of the name that a word stands for.
pub fn letters(text: &[u8], word: u32) -> &[u8]
    ensures { result.now ≡ letters_of text.now word }
{
    let start = place_of(word).min(text.len());
    let end = (start + tape::value_of(word) % 32).min(text.len());
    &text[start..end]
}

// Whether two names are the same. Most differ at their first letter, which is asked before the whole is compared.
#[tactic(auto, using(crate::proofs::First::first_differs))]
fn alike(a: &[u8], b: &[u8]) -> bool
    ensures { result ≡ pointwise eqb a.now b.now }
{
    if a.len() > 0 && b.len() > 0 && a[0] != b[0] {
        return false;
    }
    a == b
}

// The first of some words whose name has these letters.
pub fn find(text: &[u8], words: &[u32], name: &[u8]) -> Option<usize>
    ensures { Finds name.now (map (letters_of text.now) words.now) result }
{
    words
        .iter()
        .position(|word| alike(name, letters(text, *word)))
}

// Which primitive has these letters, by its kind: `index_of` among their names, which is 10 if none has them (`finds-is` of sweep proofs/Laws/Leaves).
pub fn primitive(name: &[u8]) -> Option<u16>
    ensures { Finds name.now primitive_names result }
{
    (0..10).find(|kind| alike(name, Gate::name(*kind)))
}

// Whether a block's name is a primitive's, or that of one of the blocks before it.
pub fn taken(text: &[u8], before: &[u32], name: &[u8]) -> bool
    ensures { result ≡ is_in name.now (primitive_names ++ map (letters_of text.now) before.now) }
{
    primitive(name).is_some() || find(text, before, name).is_some()
}

// Whether a name is declared already.
pub fn declared_before(text: &[u8], scope: &[u32], name: &[u8]) -> bool
    ensures { result ≡ is_in name.now (map (letters_of text.now) scope.now) }
{
    find(text, scope, name).is_some()
}

// What a declared name is. A word has it as its kind and head, a number: the layout of a tape's word is that of tape specs/Layout.
#[derive(Clone, Copy, PartialEq, Eq, Debug)]
enum Role {
    Wire,
    Vector,
    Num,
    Generic,
}

#[tactic(auto, unfolding(sweep::specs::Spelling::role_in, rules::specs::Text::pick))]
fn role_of(word: u32) -> Role
    ensures { meant result ≡ role_in word }
{
    if tape::is(word, Kind::Generic) {
        return Role::Generic;
    }
    match tape::head_of(word) {
        0 => Role::Wire,
        1 => Role::Vector,
        _ => Role::Num,
    }
}

// Whether a declared name may stand in an expression at a place of the tape, where the loops over it end at `until`.
#[tactic(auto, unfolding(sweep::specs::Sweep::standing))]
pub fn stands(declared: u32, at: usize, until: usize) -> bool
    ensures { result ≡ standing at until (role_in declared) }
{
    match role_of(declared) {
        Role::Generic => true,
        Role::Num => at < until,
        Role::Wire | Role::Vector => false,
    }
}

// Whether a declared name may be an argument, whole (head 0) or with a subscript.
#[tactic(auto, unfolding(sweep::specs::Sweep::sort_fits, rules::specs::Text::pick, rules::specs::Names::is_wire, rules::specs::Names::is_vector))]
pub fn sort_fits(head: u32, declared: u32) -> bool
    ensures { result ≡ sort_fits head (role_in declared) }
{
    match role_of(declared) {
        Role::Wire => head == 0,
        Role::Vector => true,
        Role::Num | Role::Generic => false,
    }
}

// Whether such an argument is a wire where `wire` is wanted, and else a vector; with a subscript (head 1) it is a wire.
#[tactic(auto, unfolding(sweep::specs::Sweep::shape_fits, rules::specs::Text::pick, rules::specs::Names::is_wire, rules::specs::Names::is_vector))]
pub fn shape_fits(head: u32, declared: u32, wire: bool) -> bool
    ensures { result ≡ shape_fits head (role_in declared) wire }
{
    if head != 0 {
        return wire;
    }
    let wanted = if wire { Role::Wire } else { Role::Vector };
    role_of(declared) == wanted
}

#[tactic(auto, unfolding(rules::specs::Names::is_index))]
pub fn is_index(declared: u32) -> bool
    ensures { result ≡ is_index (role_in declared) }
{
    role_of(declared) == Role::Num
}
