// What of a text is still to be read, and what stands there if a well-formed netlist is written so. Nothing is tested here.
ghost use Rattle.std.specs.Prelude.{◌≡◌, List, ◌∷◌, ℕ, ◌-◌, ◌<◌, ◌≤◌, length, get_or, drop};
ghost use Rattle.rules.specs.Flat.{decimal};
ghost use Rattle.read.specs.Ahead.{Ahead, ValueAt, Stops, WireReads, SlotReads, KindReads};
ghost use Rattle.read.specs.Loops.{Passes};
ghost use Rattle.read.specs.Body.{PortsReads, VarsReads, GateReads};

use rules::Gate;

#[derive(Drop)]
pub struct Reader<'a> {
    pub rest: &'a [u8],
}

impl Reader<'_> {
    // The byte so many places on; 0 past the end.
    pub fn byte(&self, at: usize) -> u8
        ensures { result ≡ get_or self.now.rest.now at 0 }
    {
        self.rest.get(at).copied().unwrap_or(0)
    }

    // n bytes on, but not past the end.
    pub fn skip(&mut self, n: usize)
        ensures { self.new.rest.now ≡ drop n self.old.rest.now }
    {
        self.rest = self.rest.get(n..).unwrap_or(&[]);
    }

    // One byte on, where it is b.
    pub fn pass(&mut self, b: u8)
        requires { 0 < b }
        ensures { Passes self.old.rest.now b self.new.rest.now }
    {
        if self.byte(0) == b {
            self.skip(1);
        }
    }

    // The value of up to four digits, of which the first byte is taken for one.
    fn value(&self) -> usize
        ensures value { ValueAt self.now.rest.now result }
        ensures upper_bound { result < 300000 }
    {
        let mut value = amount(self.byte(0));
        for i in 1..4 {
            let b = self.byte(i);
            if !b.is_ascii_digit() {
                break;
            }
            value = 10 * value + amount(b);
        }
        value
    }

    // The number that is next; 0 where it is too large, since nothing is tested here: the comparison decides. `as` is proved to fit.
    fn number(&self) -> u16
        ensures by_index { (n : ℕ) (ps : List (List ℕ)) → n < 10000 → Ahead self.now.rest.now (decimal n ∷ ps) → Stops ps → result ≡ n }
        ensures upper_bound { result < 10000 }
    {
        let v = self.value();
        if v < 10000 { v as u16 } else { 0 }
    }

    // The number after a w.
    fn wire(&mut self) -> u16
        ensures { WireReads self.old.rest.now result self.new.rest.now }
    {
        self.skip(1);
        let number = self.number();
        self.skip(width(number));
        number
    }

    // Slot k of a gate with n inputs, with the comma after it; 65,535 where the kind does not use it, as the rules have it (`Slot`).
    fn slot(&mut self, n: usize, k: usize) -> u16
        requires { k < 3 }
        ensures { SlotReads self.old.rest.now n k result self.new.rest.now }
    {
        if k >= n {
            return 65535;
        }
        let wire = self.wire();
        if k + 1 < n {
            self.skip(1);
        }
        wire
    }

    // The kind whose name, with the blank and the bracket after it, is next; the last one where none is.
    fn kind(&self) -> u16
        ensures { KindReads self.now.rest.now result }
    {
        (Gate::CONNECT..Gate::ONE)
            .find(|kind| compare::calls(self.rest, 0, *kind))
            .unwrap_or(Gate::ONE)
    }

    // The ports of a line that starts with wire s: how many; 0 where there are too many, since the comparison decides.
    pub fn ports(&mut self, s: u16) -> u16
        requires { s ≤ 4000 }
        ensures upper_bound { result ≤ 1536 }
        ensures ports_reads { PortsReads self.old.rest.now s result self.new.rest.now }
    {
        for k in 0..1537 {
            if self.byte(0) != b'w' {
                self.skip(2);
                return k;
            }
            self.skip(6 + width(s + k));
            self.pass(b',');
        }
        0
    }

    // The lines of other wires, the first of which is wire s: how many; 0 where there are too many, since the comparison decides.
    pub fn vars(&mut self, s: u16) -> u16
        requires { s ≤ 4000 }
        ensures upper_bound { result ≤ 1536 }
        ensures vars_reads { VarsReads self.old.rest.now s result self.new.rest.now }
    {
        for k in 0..1537 {
            if self.byte(0) != b'V' {
                return k;
            }
            self.skip(12 + width(s + k));
        }
        0
    }

    // A gate up to its last bracket.
    pub fn gate(&mut self) -> Gate
        ensures { GateReads self.old.rest.now result self.new.rest.now }
    {
        let kind = self.kind();
        let n = Gate::inputs(kind);
        self.skip(Gate::name(kind).len() + 2);
        let a = self.slot(n, 0);
        let b = self.slot(n, 1);
        let c = self.slot(n, 2);
        self.skip(3);
        let out = self.wire();
        self.skip(1);
        Gate { kind, a, b, c, out }
    }
}

// What a digit stands for; any byte is taken.
fn amount(b: u8) -> usize
    ensures { (result ≡ b - 48) × (result < 256) }
{
    usize::from(b.saturating_sub(b'0'))
}

// How many digits a number has.
fn width(n: u16) -> usize
    ensures { (result ≡ length (decimal n)) × (result ≤ 4) }
{
    netlist::decimal_of(n).as_slice().len()
}
