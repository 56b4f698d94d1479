// Numbers in bytes, little endian: read from a place on in two, four or eight bytes, and written in so many.
#![tactic(auto)]

ghost use Rattle.std.specs.Prelude.{◌+◌, ◌≤◌, ◌<◌, ◌≡◌, length};
ghost use Rattle.lent.specs.Writer.{Writes};
ghost use Rattle.little.specs.Little.{little, field};

use lent::Writer;

// The widths.
pub const U8: usize = 1;

pub const U16: usize = 2;

pub const U32: usize = 4;

pub fn u16_at(s: &[u8], at: usize) -> u32
    requires { at + 2 ≤ length s.now }
    ensures { (result ≡ field at 2 s.now) × (result < 65536) }
{
    u32::from(u16::from_le_bytes([s[at], s[at + 1]]))
}

pub fn u32_at(s: &[u8], at: usize) -> u32
    requires { at + 4 ≤ length s.now }
    ensures { result ≡ field at 4 s.now }
{
    u32::from_le_bytes([s[at], s[at + 1], s[at + 2], s[at + 3]])
}

pub fn u64_at(s: &[u8], at: usize) -> u64
    requires { at + 8 ≤ length s.now }
    ensures { result ≡ field at 8 s.now }
{
    u64::from_le_bytes([
        s[at],
        s[at + 1],
        s[at + 2],
        s[at + 3],
        s[at + 4],
        s[at + 5],
        s[at + 6],
        s[at + 7],
    ])
}

// Appends a number in so many bytes.
pub fn put(out: &mut Writer, size: usize, x: usize)
    ensures { Writes (little size x) out.old out.new }
{
    let mut rest = x;
    for _ in 0..size {
        out.put((rest % 256) as u8);
        rest /= 256;
    }
}
