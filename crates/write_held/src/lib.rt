// Texts of ours, and pieces of what is held or kept, written to the newest buffer. What is held stands behind the captures in the same work bytes.
#![tactic(auto)]

ghost use Rattle.std.specs.Prelude.{◌≡◌, length, take, drop, ◌≤◌};
ghost use Rattle.regions.specs.Sizes.{region_size, kept_at};
ghost use Rattle.machine.specs.Turn.{url_of};
ghost use Rattle.write_held.specs.Parts.{PushesPart, PushesUrlPart};
ghost use Rattle.write_held.specs.Private.{is_part, Part, Appended};
ghost use Rattle.write_held.specs.Show.{as_is, ShowsText, ShowsPiece};

use machine::Options;
use state_buffers::Buffers;

// ---- parts of the work bytes

// Appends n of the work bytes, from a place on.
pub fn push_part(b: Buffers, work: &mut [u8], out: &mut [u8], from: usize, n: usize) -> Buffers
    ensures { PushesPart from n b work.old out.old result work.new out.new }
{
    // Not by `push_by`: the bytes stand in the buffer that the captures are in.
    let mut r = b;
    if !is_part(work.len(), from, n) {
        return b;
    }
    if b.depth == 0 {
        r.page = lent::put_all(out, b.page, &work[from..from + n]);
        return r;
    }
    r.end = regions::carry(work, from, n, 0, b.end);
    r
}

// Whether n bytes from a place on lie within the work bytes, behind the captures.
fn is_part(len: usize, from: usize, n: usize) -> bool
    ensures { result ≡ is_part len from n }
{
    if from < regions::HELD_AT {
        return false;
    }
    if len < n {
        return false;
    }
    from <= len - n
}

// ---- addresses

// Appends them as the URL of a link or an image, made safe as the options say.
pub fn push_url_part(
    b: Buffers,
    work: &mut [u8],
    out: &mut [u8],
    from: usize,
    n: usize,
    options: Options,
    image: bool,
) -> Buffers
    ensures { PushesUrlPart options image from n b work.old out.old result work.new out.new }
{
    let mut r = b;
    if !is_part(work.len(), from, n) {
        return b;
    }
    if regions::SIZE < n {
        return b;
    }
    if b.depth == 0 {
        r.page = write_pieces::put_url(out, b.page, &work[from..from + n], options, image);
        return r;
    }
    r.end = put_url(work, b.end, from, n, options, image);
    r
}

// To the captures. The bytes are copied first, since two parts of the work bytes cannot be lent at once. An array is zeroed at each call, and most URLs are short.
fn put_url(
    work: &mut [u8],
    at: usize,
    from: usize,
    n: usize,
    options: Options,
    image: bool,
) -> usize
    requires { Part work.old from n region_size }
    ensures { Appended work.old at (url_of options image (take n (drop from work.old))) work.new result }
{
    if n <= 256 {
        return put_short_url(work, at, from, n, options, image);
    }
    put_long_url(work, at, from, n, options, image)
}

// Two functions for two lengths: by a const parameter the proof did not close, and a clause would have to say that N bytes can be addressed.
fn put_short_url(
    work: &mut [u8],
    at: usize,
    from: usize,
    n: usize,
    options: Options,
    image: bool,
) -> usize
    requires { Part work.old from n 256 }
    ensures { Appended work.old at (url_of options image (take n (drop from work.old))) work.new result }
{
    let mut copy = [0u8; 256];
    put_url_by(work, at, from, n, options, image, &mut copy)
}

fn put_long_url(
    work: &mut [u8],
    at: usize,
    from: usize,
    n: usize,
    options: Options,
    image: bool,
) -> usize
    requires { Part work.old from n region_size }
    ensures { Appended work.old at (url_of options image (take n (drop from work.old))) work.new result }
{
    let mut copy = [0u8; regions::SIZE];
    put_url_by(work, at, from, n, options, image, &mut copy)
}

// By a copy that has room.
fn put_url_by(
    work: &mut [u8],
    at: usize,
    from: usize,
    n: usize,
    options: Options,
    image: bool,
    copy: &mut [u8],
) -> usize
    requires { Part work.old from n (length copy.old) }
    ensures { Appended work.old at (url_of options image (take n (drop from work.old))) work.new result }
{
    lent::put_all(copy, 0, &work[from..from + n]);
    write_pieces::put_url(&mut work[0..regions::SIZE], at, &copy[0..n], options, image)
}

// ---- texts and pieces

pub fn push_text(b: Buffers, work: &mut [u8], out: &mut [u8], s: &[u8]) -> Buffers
    ensures { ShowsText s.now b work.old out.old result work.new out.new }
{
    if work.len() < regions::SIZE {
        return b;
    }
    state_buffers::push(b, &mut work[0..regions::SIZE], out, s)
}

// n bytes from a place on of the region that starts at `base`.
pub fn push_piece(
    b: Buffers,
    work: &mut [u8],
    out: &mut [u8],
    base: usize,
    place: usize,
    n: usize,
) -> Buffers
    requires { base ≤ kept_at }
    ensures { ShowsPiece as_is base place n b work.old out.old result work.new out.new }
{
    if regions::SIZE < place {
        return b;
    }
    push_part(b, work, out, base + place, n)
}

// The same as a URL.
pub fn push_url_piece(
    b: Buffers,
    work: &mut [u8],
    out: &mut [u8],
    base: usize,
    place: usize,
    n: usize,
    options: Options,
    image: bool,
) -> Buffers
    requires { base ≤ kept_at }
    ensures { ShowsPiece (url_of options image) base place n b work.old out.old result work.new out.new }
{
    if regions::SIZE < place {
        return b;
    }
    push_url_part(b, work, out, base + place, n, options, image)
}
