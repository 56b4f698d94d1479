// One byte of a URL, percent-encoded, and encoded for HTML.
#![tactic(auto)]

ghost use Rattle.std.specs.Prelude.{◌<◌, ◌≡◌, length, drop};
ghost use Rattle.lent.specs.Bytes.{between};
ghost use Rattle.lent.specs.Writer.{Writes};
ghost use Rattle.encode.specs.Encode.{encode_of};
ghost use Rattle.url_byte.specs.Byte.{is_kept, two_alnum, stays, hex_upper, percent, url_byte};
ghost use Rattle.url_byte.specs.Private.{byte_of, is_apart, mark_of, kept_mask};

use encode_byte::Escaping;
use lent::Writer;

// The byte at `i`. Of those that stay HTML encodes only `&` and `'`.
pub fn put_url_byte(value: &[u8], i: usize, escaping: Escaping, out: &mut Writer)
    requires { i < length value.now }
    ensures { Writes (encode_of escaping (byte_of (drop i value.now))) out.old out.new }
{
    let b = value[i];
    if !is_staying(value, i) {
        put_percent(b, out);
        return;
    }
    if (b == b'&') | (b == b'\'') {
        encode_byte::put_byte(b, escaping, out);
        return;
    }
    out.put(b);
}

// A byte with a mark: of these only `&` and `'` stay.
pub fn put_marked_byte(b: u8, escaping: Escaping, out: &mut Writer)
    ensures { Writes (encode_of escaping (url_byte (between 38 39 b) b)) out.old out.new }
{
    if (b == b'&') | (b == b'\'') {
        encode_byte::put_byte(b, escaping, out);
        return;
    }
    put_percent(b, out);
}

// Appends `%XX`.
fn put_percent(b: u8, out: &mut Writer)
    ensures { Writes (percent b) out.old out.new }
{
    out.put_all(&[b'%', hex(b / 16), hex(b % 16)]);
}

// The upper-case digit of a number below 16.
fn hex(n: u8) -> u8
    requires { n < 16 }
    ensures { result ≡ hex_upper n }
{
    if n < 10 { b'0' + n } else { b'A' - 10 + n }
}

// Whether the byte at `i` stays as it is.
fn is_staying(value: &[u8], i: usize) -> bool
    requires { i < length value.now }
    ensures { result ≡ stays (drop i value.now) }
{
    match value[i] {
        b'%' => has_two_alnum(&value[i + 1..]),
        b => is_kept(b),
    }
}

// By a mask for the bytes below 64 and one for those up to 127.
fn is_kept(b: u8) -> bool
    ensures { result ≡ is_kept b }
{
    lent::has_bit(kept_mask(b), b % 64)
}

fn kept_mask(b: u8) -> u64
    ensures { result ≡ kept_mask b }
{
    match b {
        0..=63 => 0xafffffda00000000,
        64..=127 => 0x47fffffe87ffffff,
        _ => 0,
    }
}

// Whether two letters or digits stand first.
pub fn has_two_alnum(s: &[u8]) -> bool
    ensures { result ≡ two_alnum s.now }
{
    match s {
        [a, b, ..] => a.is_ascii_alphanumeric() & b.is_ascii_alphanumeric(),
        _ => false,
    }
}

// Whether a byte ends a run: it does not stay, or HTML may encode it. No branch, so that many can be looked at together.
pub fn is_apart(b: u8) -> bool
    ensures { result ≡ is_apart b }
{
    !((b == 33)
        | (b == 35)
        | (b == 36)
        | ((40 <= b) & (b <= 59))
        | (b == 61)
        | ((63 <= b) & (b <= 90))
        | (b == 95)
        | ((97 <= b) & (b <= 122))
        | (b == 126))
}

// The mark of a byte by the two behind it: 0 where a run may move it as it is, a `%` before two letters or digits too.
pub fn mark(b: u8, c: u8, d: u8) -> u8
    ensures { result ≡ mark_of b c d }
{
    (is_apart(b) & !((b == 37) & (c.is_ascii_alphanumeric() & d.is_ascii_alphanumeric()))) as u8
}
