// Standard input, byte by byte through a buffer. std's `BufReader` wants an allocator, and this project has no heap.
ghost use Rattle.std.specs.Prelude.{◌≡◌, ◌+◌, ◌≤◌, ◌<◌, IfSome, slice_get};

use std::io::{Read, Stdin};

#[derive(Drop)]
pub struct Input {
    from: Stdin,
    buffer: [u8; 4096],
    // Where the next byte stands, and where the last read ended.
    at: usize,
    end: usize,
    ghost begun: { at ≤ end },
    ghost within: { end ≤ 4096 },
}

// What lent memory is made of, and how one comes from the input.
pub trait Cell: Copy {
    fn read(input: &mut Input) -> Option<Self>;
}

impl Cell for u8 {
    fn read(input: &mut Input) -> Option<u8> {
        input.next()
    }
}

// The low byte comes first.
impl Cell for u16 {
    fn read(input: &mut Input) -> Option<u16> {
        let low = input.next()?;
        let high = input.next()?;
        Some(u16::from_le_bytes([low, high]))
    }
}

fn digit(byte: u8) -> Option<usize> {
    match byte {
        b'0'..=b'9' => Some(usize::from(byte - b'0')),
        _ => None,
    }
}

impl Input {
    pub fn new(from: Stdin) -> Input
        ensures { result.at ≡ result.end }
    {
        Input {
            from,
            buffer: [0; 4096],
            at: 0,
            end: 0,
        }
    }

    // A read that fails is taken as the input's end.
    fn refill(&mut self) {
        self.at = 0;
        self.end = self.from.read(&mut self.buffer).unwrap_or(0);
    }

    // The next byte; none at the input's end. What was read is given in order, each byte once.
    pub fn next(&mut self) -> Option<u8>
        ensures byte { self.old.at < self.old.end → result ≡ slice_get self.old.buffer self.old.at }
        ensures rest { self.old.at < self.old.end → (self.new.at ≡ self.old.at + 1) × (self.new.end ≡ self.old.end) × (self.new.buffer ≡ self.old.buffer) }
    {
        if self.at == self.end {
            self.refill();
        }
        let byte = self.buffer[..self.end].get(self.at).copied()?;
        self.at += 1;
        Some(byte)
    }

    // These bytes, and no others.
    pub fn expect(&mut self, word: &[u8]) -> Option<()> {
        for &byte in word {
            if self.next()? != byte {
                return None;
            }
        }
        Some(())
    }

    // The decimal number that comes next, with the byte `end` right behind it; none where it is over `most`.
    pub fn number(&mut self, end: u8, most: usize) -> Option<usize>
        ensures { IfSome result (λ n. n ≤ most) }
    {
        let mut value = digit(self.next()?)?;
        // A proved loop has to end, and nothing says that the digits do.
        for _ in 0..u64::MAX {
            let byte = self.next()?;
            if byte == end {
                return (value <= most).then_some(value);
            }
            value = value.checked_mul(10)?.checked_add(digit(byte)?)?;
        }
        None
    }

    // Fills lent memory; none where the input has not enough.
    pub fn fill<T: Cell>(&mut self, lent: &mut [T]) -> Option<()> {
        for cell in lent {
            *cell = T::read(self)?;
        }
        Some(())
    }
}
