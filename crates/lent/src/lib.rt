// Writing into a lent buffer. A place past the buffer's end says that something had no room, and stays so; callers need no test
// between two writes.
#![tactic(auto)]

ghost use Rattle.std.specs.Prelude.{◌+◌, ◌-◌, ◌≤◌, ◌<◌, [], ◌∷◌, ◌++◌, ◌≡◌, length, take};
ghost use Rattle.lent.specs.Bytes.{has_bit};
ghost use Rattle.lent.specs.Fill.{fill, zeros, Filled};
ghost use Rattle.lent.specs.Writer.{Writes, Clears};
ghost use Rattle.lent.specs.Private.{WritesAhead};

// A lent buffer, and the place behind the last byte that was written.
#[derive(Drop)]
pub struct Writer<'a> {
    pub bytes: &'a mut [u8],
    pub at: usize,
}

impl<'a> Writer<'a> {
    // Appends one byte.
    pub fn put(&mut self, b: u8)
        ensures { Writes (b ∷ []) self.old self.new }
    {
        if self.at < self.bytes.len() {
            self.bytes[self.at] = b;
            self.at += 1;
            return;
        }
        if self.bytes.len() < self.at {
            return;
        }
        self.at += 1;
    }

    // Appends all of `s`, or as much as fits.
    pub fn put_all(&mut self, s: &[u8])
        ensures { Writes s.now self.old self.new }
    {
        if self.bytes.len() < self.at {
            return;
        }
        let room = self.bytes.len() - self.at;
        if s.len() <= room {
            copy(self.bytes, self.at, s, s.len());
            self.at += s.len();
            return;
        }
        copy(self.bytes, self.at, s, room);
        self.at = self.bytes.len() + 1;
    }

    // N bytes, all of them read before one is written, so that they are moved at once; of another length, as `put_all`.
    pub fn put_exact<const N: usize>(&mut self, s: &[u8])
        ensures { Writes s.now self.old self.new }
    {
        if s.len() != N {
            self.put_all(s);
            return;
        }
        let mut block = [0u8; N];
        block.copy_from_slice(s);
        self.put_all(&block);
    }

    // The first k of eight bytes. Where there is room all eight are moved, at once: what is appended next covers the rest.
    pub fn put_ahead(&mut self, s: &[u8], k: usize)
        requires { (length s.now ≡ 8) × (k ≤ 8) }
        ensures { WritesAhead (take k s.now) (8 - k) self.old self.new }
    {
        if room(self.bytes.len(), self.at) < 8 {
            self.put_all(&s[0..k]);
            return;
        }
        let mut eight = [0u8; 8];
        eight.copy_from_slice(s);
        copy(self.bytes, self.at, &eight, 8);
        self.at += k;
    }

    // Zeros behind what was written.
    pub fn clear_rest(&mut self)
        ensures { Clears self.old self.new }
    {
        clear(self.bytes, self.at);
    }
}

// One byte, appended at a place of a lent buffer; the place behind comes out.
pub fn put(out: &mut [u8], at: usize, b: u8) -> usize
    ensures { Filled out.old at (b ∷ []) out.new result }
{
    let mut w = Writer { bytes: out, at };
    w.put(b);
    w.at
}

// The same with all of `s`, or as much as fits.
pub fn put_all(out: &mut [u8], at: usize, s: &[u8]) -> usize
    ensures { Filled out.old at s.now out.new result }
{
    let mut w = Writer { bytes: out, at };
    w.put_all(s);
    w.at
}

// How many of n bytes lie from a place on.
pub fn room(n: usize, at: usize) -> usize
    ensures { result ≡ n - at }
{
    n.saturating_sub(at)
}

// The first n bytes of `s`, which fit. Byte by byte, and not `copy_from_slice`: that is a call of `memmove`, and the archive
// needs `memcpy` and `memset` alone.
fn copy(out: &mut [u8], at: usize, s: &[u8], n: usize)
    requires { (n ≤ length s.now) × (at + n ≤ length out.old) }
    ensures { out.new ≡ fill out.old at (take n s.now) }
{
    for i in 0..n {
        out[at + i] = s[i];
    }
}

// Zeros from a place on.
pub fn clear(out: &mut [u8], from: usize)
    ensures { out.new ≡ take from out.old ++ zeros (length out.old - from) }
{
    for i in from..out.len() {
        out[i] = 0;
    }
}

// A set of numbers below 64, as the bits of a mask: whether k is one of them.
pub fn has_bit(mask: u64, k: u8) -> bool
    requires { k < 64 }
    ensures { result ≡ has_bit mask k }
{
    (mask >> k) % 2 == 1
}
