// Standard output through a buffer. std's `BufWriter` wants an allocator, and this project has no heap.
ghost use Rattle.std.specs.Prelude.{◌≡◌, ◌≤◌, ◌<◌, [], ◌∷◌, ◌++◌, length, take};

use std::io::{Stdout, Write};

#[derive(Drop)]
pub struct Output {
    to: Stdout,
    buffer: [u8; 4096],
    // So many bytes of the buffer are filled.
    used: usize,
    ghost within: { used ≤ 4096 },
}

// How many there are up to the last that is not zero.
fn filled<T: Copy + Into<usize>>(numbers: &[T]) -> usize
    ensures { result ≤ length numbers.now }
{
    numbers
        .iter()
        .rposition(|n| (*n).into() != 0)
        .map_or(0, |last| last + 1)
}

impl Output {
    pub fn new(to: Stdout) -> Output
        ensures { result.used ≡ 0 }
    {
        Output {
            to,
            buffer: [0; 4096],
            used: 0,
        }
    }

    // Writes what is in the buffer; what cannot be written is lost.
    pub fn flush(&mut self)
        ensures { self.new.used ≡ 0 }
    {
        let _ = self.to.write_all(&self.buffer[..self.used]);
        self.used = 0;
    }

    // One byte, behind those that are in the buffer; where it is full, they are written first.
    pub fn byte(&mut self, byte: u8)
        ensures room { self.old.used < 4096 → take self.new.used self.new.buffer ≡ take self.old.used self.old.buffer ++ byte ∷ [] }
        ensures full { self.old.used ≡ 4096 → take self.new.used self.new.buffer ≡ byte ∷ [] }
    {
        if self.used == self.buffer.len() {
            self.flush();
        }
        self.buffer[self.used] = byte;
        self.used += 1;
    }

    pub fn bytes(&mut self, text: &[u8]) {
        for &byte in text {
            self.byte(byte);
        }
    }

    // A space and a number.
    pub fn number(&mut self, n: usize) {
        let mut digits = [0; 20];
        // `as` loses nothing here, and `u64` has no `From<usize>`.
        let k = io::decimal(n as u64, &mut digits);
        self.byte(b' ');
        self.bytes(&digits[..k]);
    }

    // A line: a word, and the numbers up to the last that is not zero.
    pub fn line<T: Copy + Into<usize>>(&mut self, word: &[u8], numbers: &[T]) {
        self.bytes(word);
        for n in &numbers[..filled(numbers)] {
            self.number((*n).into());
        }
        self.byte(b'\n');
    }
}
