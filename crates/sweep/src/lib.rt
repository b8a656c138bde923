// The sweep that resolves the names of a tape, word by word, stands in specs/Sweep; proofs/Laws prove that it is the rule for names.
// These are the types of its answers.
#![tactic(auto)]

// What is known where a word stands, beside the words of the declared names and the ends of loops: those are lent rows, no heap, and are not copied.
#[derive(Clone, Copy, PartialEq, Eq, Debug)]
pub struct Spot {
    // How many names its block declared so far.
    pub count: usize,
    // The index of the loop whose body is next; none for a block's body.
    pub index: Option<usize>,
    // Where among the headings the port stands that the next argument is for.
    pub want: usize,
    // How many blocks have begun.
    pub blocks: usize,
}

// What a call wants, and where among the headings its ports begin; 0 for a primitive, whose ports are none of them (specs/Sweep, `headings`).
#[derive(Clone, Copy, PartialEq, Eq, Debug)]
pub struct Heading {
    pub generics: usize,
    pub inputs: usize,
    pub outputs: usize,
    pub want: usize,
}

// What a word becomes, and what is known after it.
#[derive(Clone, Copy, PartialEq, Eq, Debug)]
pub struct Step {
    pub word: u32,
    pub spot: Spot,
}
