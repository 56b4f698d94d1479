// The work bytes are three regions of 16,384: the captures, what is held for open media, what is kept to the end. Bytes go from one to another.
#![tactic(auto)]

ghost use Rattle.std.specs.Prelude.{◌+◌, ◌-◌, ◌≤◌, min, ◌≡◌, take, drop};
ghost use Rattle.lent.specs.Fill.{fill};
ghost use Rattle.regions.specs.Regions.{Carries};
ghost use Rattle.regions.specs.Private.{Apart, is_apart};
ghost use Rattle.regions.specs.Sizes.{region_size, no_room};

// A region.
pub const SIZE: usize = 16384;
// Where the held bytes and the kept bytes start; the captures start at 0.
pub const HELD_AT: usize = SIZE;

pub const KEPT_AT: usize = 2 * SIZE;
// All three.
pub const WORK: usize = 3 * SIZE;
// An end that says that the bytes had no room in their region.
pub const NO_ROOM: usize = SIZE + 1;

// Copies n bytes to a place apart from them. Byte by byte, and not `copy_within`, which is a call of `memmove`.
fn copy(w: &mut [u8], from: usize, n: usize, at: usize)
    requires { Apart w.old from n at }
    ensures { w.new ≡ fill w.old at (take n (drop from w.old)) }
{
    for i in 0..n {
        let x = w[from + i];
        w[at + i] = x;
    }
}

// How many of n bytes fit at a place of a region.
fn fitting(at: usize, n: usize) -> usize
    requires { at ≤ region_size }
    ensures { result ≡ min n (region_size - at) }
{
    n.min(SIZE - at)
}

// The place behind n bytes, or the one that says that they had no room.
fn behind(at: usize, n: usize) -> usize
    requires { at ≤ region_size }
    ensures { result ≡ min (at + n) no_room }
{
    at.saturating_add(n).min(NO_ROOM)
}

// Whether n bytes at a place lie within the work bytes and outside a region, which lies within them too.
fn is_apart(len: usize, from: usize, n: usize, to: usize) -> bool
    ensures { result ≡ is_apart len from n to }
{
    if len < n {
        return false;
    }
    if len - n < from {
        return false;
    }
    if len < SIZE {
        return false;
    }
    if len - SIZE < to {
        return false;
    }
    if from + n <= to {
        return true;
    }
    to + SIZE <= from
}

// Appends n bytes from a place of the work bytes on at the place `at` of the region that starts at `to`.
pub fn carry(w: &mut [u8], from: usize, n: usize, to: usize, at: usize) -> usize
    ensures { Carries w.old from n to at w.new result }
{
    if !is_apart(w.len(), from, n, to) {
        return at;
    }
    if SIZE < at {
        return at;
    }
    if KEPT_AT < to {
        return at;
    }
    let m = fitting(at, n);
    copy(w, from, m, to + at);
    behind(at, n)
}
