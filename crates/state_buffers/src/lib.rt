// The page and the captures above it: their bytes in lent buffers, one capture behind the other, and their places by value.
// Where something has no room its place is past the buffer's end, and stays there.
#![tactic(auto)]

ghost use Rattle.std.specs.Prelude.{◌≡◌, get_or};
ghost use Rattle.encode.specs.Encode.{encode_of};
ghost use Rattle.lent.specs.Fill.{Filled};
ghost use Rattle.machine.specs.Buffers.{push, end_line, ending_bytes, is_eol, open_capture};
ghost use Rattle.state_buffers.specs.Stand.{PushesBy, Keeps, KeepsBy, end_line_by, Opens, Drops};
ghost use Rattle.state_buffers.specs.Private.{ends_line, at_line_start, needless};

use encode_byte::Escaping;
use lent::Writer;
use machine::Ending;

// The newest capture is the bytes from `start` up to `end`.
#[derive(Clone, Copy)]
pub struct Buffers {
    // behind the page
    pub page: usize,
    pub end: usize,
    pub start: usize,
    // how many captures are open
    pub depth: usize,
}

// Appends to the newest capture, or to the page, by one call of `put`: with the buffer and the place to write at, it answers the place behind.
pub fn push_by<F: FnOnce(&mut [u8], usize) -> usize>(
    b: Buffers,
    captures: &mut [u8],
    out: &mut [u8],
    put: F,
) -> Buffers
    requires { F.IsAlwaysCallable put }
    ensures { PushesBy (F.post put) b captures.old out.old result captures.new out.new }
{
    let mut r = b;
    if b.depth == 0 {
        r.page = put(out, b.page);
        return r;
    }
    r.end = put(captures, b.end);
    r
}

// Appends to the newest capture, or to the page.
pub fn push(b: Buffers, captures: &mut [u8], out: &mut [u8], s: &[u8]) -> Buffers
    ensures { Keeps (push s.now) b captures.old out.old result captures.new out.new }
{
    push_by(b, captures, out, |w, at| lent::put_all(w, at, s))
}

// The same, with what HTML needs encoded.
pub fn push_encoded(
    b: Buffers,
    captures: &mut [u8],
    out: &mut [u8],
    s: &[u8],
    escaping: Escaping,
) -> Buffers
    ensures { Keeps (push (encode_of escaping s.now)) b captures.old out.old result captures.new out.new }
{
    push_by(b, captures, out, |w, at| put_encoded(s, escaping, w, at))
}

// Appends what HTML needs encoded at a place.
pub fn put_encoded(s: &[u8], escaping: Escaping, out: &mut [u8], at: usize) -> usize
    ensures { Filled out.old at (encode_of escaping s.now) out.new result }
{
    let mut w = Writer { bytes: out, at };
    encode::encode(s, escaping, &mut w);
    w.at
}

// ---- line endings

// The bytes of a line ending.
pub fn put_ending(ending: Ending, out: &mut [u8], at: usize) -> usize
    ensures { Filled out.old at (ending_bytes ending) out.new result }
{
    match ending {
        Ending::Lf => lent::put_all(out, at, b"\n"),
        Ending::Cr => lent::put_all(out, at, b"\r"),
        Ending::CrLf => lent::put_all(out, at, b"\r\n"),
    }
}

fn line_ending(b: Buffers, ending: Ending, captures: &mut [u8], out: &mut [u8]) -> Buffers
    ensures { KeepsBy ending end_line b captures.old out.old result captures.new out.new }
{
    push_by(b, captures, out, |w, at| put_ending(ending, w, at))
}

fn is_eol(b: u8) -> bool
    ensures { result ≡ is_eol b }
{
    (b == b'\n') | (b == b'\r')
}

// Whether the bytes from one place to another are none, or end in a line ending. Past the buffer's end it says so too.
pub fn ends_line(s: &[u8], from: usize, to: usize) -> bool
    ensures { result ≡ ends_line s.now from to }
{
    if to <= from {
        return true;
    }
    if s.len() < to {
        return true;
    }
    is_eol(s[to - 1])
}

fn at_line_start(b: Buffers, captures: &[u8], out: &[u8]) -> bool
    ensures { result ≡ at_line_start b captures.now out.now }
{
    if b.depth == 0 {
        return ends_line(out, 0, b.page);
    }
    ends_line(captures, b.start, b.end)
}

// Whether no line ending is wanted: the newest buffer is empty or ends in one, and it is not wanted always.
fn is_needless(b: Buffers, always: bool, captures: &[u8], out: &[u8]) -> bool
    ensures { result ≡ needless always b captures.now out.now }
{
    if always {
        return false;
    }
    at_line_start(b, captures, out)
}

// A line ending, always or where it is needed. One function for both has two callers, so it stays a call, and a context is copied less often.
pub fn line_ending_by(
    b: Buffers,
    always: bool,
    ending: Ending,
    captures: &mut [u8],
    out: &mut [u8],
) -> Buffers
    ensures { KeepsBy ending (end_line_by always) b captures.old out.old result captures.new out.new }
{
    if is_needless(b, always, captures, out) {
        return b;
    }
    line_ending(b, ending, captures, out)
}

// ---- captures

fn start_at(starts: &[usize], i: usize) -> usize
    ensures { result ≡ get_or starts.now i 0 }
{
    starts.get(i).copied().unwrap_or(0)
}

// Opens a capture. The start of the one below it is saved.
pub fn open(b: Buffers, starts: &mut [usize]) -> Buffers
    ensures { Opens b starts.old result starts.new }
{
    let d = b.depth;
    if starts.len() <= d {
        return b;
    }
    starts[d] = b.start;
    Buffers {
        start: b.end,
        depth: d + 1,
        ..b
    }
}

// Takes the newest capture off.
pub fn drop(b: Buffers, starts: &[usize]) -> Buffers
    ensures { Drops b starts.now result }
{
    if b.depth == 0 {
        return b;
    }
    let d = b.depth - 1;
    Buffers {
        end: b.start,
        start: start_at(starts, d),
        depth: d,
        ..b
    }
}
