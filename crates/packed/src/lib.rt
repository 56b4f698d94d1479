// Small answers packed into one word: a stack of at most 64 bits, and 32 digits of two bits.
#![tactic(auto)]

ghost use Rattle.std.specs.Prelude.{◌<◌, ◌^◌, ◌≡◌};
ghost use Rattle.packed.specs.Tight.{More, Fewer, Newest, Any};
ghost use Rattle.packed.specs.Private.{wider};
ghost use Rattle.packed.specs.Word.{digit_of, Placed};

// ---- the stack: which containers are tight, say; a bit each, the newest lowest

#[derive(Clone, Copy)]
pub struct Tight {
    pub bits: u64,
    pub count: usize,
}

impl Tight {
    // One more.
    pub fn more(self, x: bool) -> Self
        ensures { More x self result }
    {
        let n = self.count;
        let old = self.bits;
        if 63 < n {
            return self;
        }
        if 0x7FFF_FFFF_FFFF_FFFF < old {
            return self;
        }
        self.with_bit(x)
    }

    // The newest in the lowest bit.
    fn with_bit(self, x: bool) -> Self
        requires { (self.bits < 2 ^ 63) × (self.count < 64) }
        ensures { result ≡ wider x self }
    {
        let count = self.count + 1;
        let bits = self.bits * 2;
        if x {
            return Self {
                bits: bits + 1,
                count,
            };
        }
        Self { bits, count }
    }

    // The newest goes.
    pub fn fewer(self) -> Self
        ensures { Fewer self result }
    {
        let n = self.count;
        if n == 0 {
            return self;
        }
        Self {
            bits: self.bits / 2,
            count: n - 1,
        }
    }

    // The newest; where there is none, no.
    pub fn newest(self) -> bool
        ensures { Newest self result }
    {
        let n = self.count;
        if n == 0 {
            return false;
        }
        self.bits % 2 == 1
    }

    // Whether any is yes.
    pub fn any(self) -> bool
        ensures { Any self result }
    {
        self.bits != 0
    }
}

// ---- the digits: answers that are kept together, so that a store of one is no narrower than a read of all

// The digit at k.
pub fn digit(w: u64, k: usize) -> u64
    requires { k < 32 }
    ensures { result ≡ digit_of k w }
{
    w >> (2 * k) & 3
}

// The word with the digit x at k.
pub fn with_digit(w: u64, k: usize, x: u64) -> u64
    requires { (k < 32) × (x < 4) }
    ensures { Placed k x w result }
{
    let old = digit(w, k);
    w - (old << (2 * k)) + (x << (2 * k))
}
