// Lent memory set to zero: what a job did not use, and what a refusal leaves.
#![tactic(auto)]

ghost use Rattle.std.specs.Prelude.{◌≡◌, length, replicate};

// What memory is lent in: bytes, and words of two widths. What stays zero is of no width, so that each job clears by the same promise.
pub trait Cell: Copy {
    ghost ZERO: { Self };

    // A copy cannot fail, and is the cell itself.
    ghost copies: { (c : Self) → Self.is_infallible c × ((d : Self) → Self.is_clone c d → d ≡ c) };

    const ZERO: Self;
}

impl Cell for u8 {
    ghost ZERO = { 0 };

    ghost copies = { λ c. (tt, λ d e. e) };

    const ZERO: u8 = 0;
}

impl Cell for u16 {
    ghost ZERO = { 0 };

    ghost copies = { λ c. (tt, λ d e. e) };

    const ZERO: u16 = 0;
}

impl Cell for u32 {
    ghost ZERO = { 0 };

    ghost copies = { λ c. (tt, λ d e. e) };

    const ZERO: u32 = 0;
}

// All zeros, whatever stood there.
pub fn all<T: Cell>(lent: &mut [T])
    ensures { lent.new ≡ replicate (length lent.old) T.ZERO }
{
    lent.fill(T::ZERO);
}
