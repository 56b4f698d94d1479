// What handlers write beside texts of ours: numbers, padded lines, addresses, character references, attributes.
#![tactic(auto)]

ghost use Rattle.std.specs.Prelude.{◌+◌, ◌<◌, ◌≡◌, replicate, ◌++◌};
ghost use Rattle.lent.specs.Fill.{Filled};
ghost use Rattle.machine.specs.Text.{decimal, start_text, start_of, align_text};
ghost use Rattle.write_pieces.specs.Written.{written, number_in};
ghost use Rattle.lent.specs.Bytes.{bytes};
ghost use Rattle.encode.specs.Encode.{encode_of};
ghost use Rattle.sanitize_uri.specs.Url.{sanitize_of};
ghost use Rattle.sanitize_uri.specs.Protocols.{schemes_of, sanitize_with_protocols_of};
ghost use Rattle.character_reference.specs.Reference.{reference_for, or_nothing};
ghost use Rattle.machine.specs.Buffers.{push};
ghost use Rattle.machine.specs.Turn.{url_of};
ghost use Rattle.state_buffers.specs.Stand.{Keeps};
ghost use Rattle.write_pieces.specs.Pieces.{PushesMail, PushesReference, PushesStart, PushesAlign, enter_of};

use character_reference::{Marker, Names};
use encode_byte::Escaping;
use event::{BytePlace, Event};
use lent::Writer;
use machine::Options;
use sanitize_uri::Protocols;
use state_buffers::Buffers;

// ---- short texts, appended to a lent buffer

// Appends a number in decimal: the digits before the last one first.
pub fn put_decimal(out: &mut [u8], at: usize, n: usize) -> usize
    ensures { Filled out.old at (decimal n) out.new result }
{
    if n < 10 {
        return lent::put(out, at, digit(n));
    }
    let r = put_decimal(out, at, n / 10);
    lent::put(out, r, digit(n % 10))
}

fn digit(n: usize) -> u8
    requires { n < 10 }
    ensures { result ≡ 48 + n }
{
    (48 + n) as u8
}

// Appends `n` spaces.
pub fn put_spaces(out: &mut [u8], at: usize, n: usize) -> usize
    ensures { Filled out.old at (replicate n 32) out.new result }
{
    let mut r = at;
    for _ in 0..n {
        r = lent::put(out, r, b' ');
    }
    r
}

// ---- lists and tables

// Appends the attribute of a list that starts with the item value `s`; nothing where that breaks its rule.
pub fn put_start(out: &mut [u8], at: usize, s: &[u8]) -> usize
    ensures { Filled out.old at (written (start_of s.now)) out.new result }
{
    match number_in(s) {
        Some(n) => put_start_number(out, at, n),
        None => at,
    }
}

fn put_start_number(out: &mut [u8], at: usize, n: usize) -> usize
    ensures { Filled out.old at (start_text n) out.new result }
{
    if n == 1 {
        return at;
    }
    let p = lent::put_all(out, at, b" start=\"");
    let q = put_decimal(out, p, n);
    lent::put(out, q, b'"')
}

// What the digits of an item's value say; nothing where they break its rule.
fn number_in(s: &[u8]) -> Option<usize>
    ensures { result ≡ number_in s.now }
{
    if s.len() < 1 {
        return None;
    }
    if 9 < s.len() {
        return None;
    }
    let mut n: usize = 0;
    for &b in s {
        if b < b'0' {
            return None;
        }
        if b'9' < b {
            return None;
        }
        n = n * 10 + (b - b'0') as usize;
    }
    Some(n)
}

// Appends the attribute of a cell with an alignment.
pub fn put_align(out: &mut [u8], at: usize, a: u64) -> usize
    ensures { Filled out.old at (align_text a) out.new result }
{
    match a {
        0 => at,
        1 => lent::put_all(out, at, b" align=\"left\""),
        2 => lent::put_all(out, at, b" align=\"right\""),
        _ => lent::put_all(out, at, b" align=\"center\""),
    }
}

// ---- the same, to the newest buffer

// A number in decimal.
pub fn push_decimal(b: Buffers, captures: &mut [u8], out: &mut [u8], n: usize) -> Buffers
    ensures { Keeps (push (decimal n)) b captures.old out.old result captures.new out.new }
{
    state_buffers::push_by(b, captures, out, |w, at| put_decimal(w, at, n))
}

// A line of code between its virtual spaces, encoded as `escaping` says.
pub fn push_padded(
    b: Buffers,
    captures: &mut [u8],
    out: &mut [u8],
    before: u8,
    s: &[u8],
    after: u8,
    escaping: Escaping,
) -> Buffers
    ensures { Keeps (push (encode_of escaping (replicate before 32 ++ s.now ++ replicate after 32))) b captures.old out.old result captures.new out.new }
{
    state_buffers::push_by(b, captures, out, |w, at| {
        put_padded(w, at, before, s, after, escaping)
    })
}

fn put_padded(
    out: &mut [u8],
    at: usize,
    before: u8,
    s: &[u8],
    after: u8,
    escaping: Escaping,
) -> usize
    ensures { Filled out.old at (encode_of escaping (replicate before 32 ++ s.now ++ replicate after 32)) out.new result }
{
    let p = put_spaces(out, at, before as usize);
    let q = state_buffers::put_encoded(s, escaping, out, p);
    put_spaces(out, q, after as usize)
}

// ---- addresses

// The URL of a link or an image, made safe as the options say.
pub fn push_url(
    b: Buffers,
    captures: &mut [u8],
    out: &mut [u8],
    s: &[u8],
    options: Options,
    image: bool,
) -> Buffers
    ensures { Keeps (push (url_of options image s.now)) b captures.old out.old result captures.new out.new }
{
    state_buffers::push_by(b, captures, out, |w, at| put_url(w, at, s, options, image))
}

// The same, appended to a lent buffer.
pub fn put_url(out: &mut [u8], at: usize, s: &[u8], options: Options, image: bool) -> usize
    ensures { Filled out.old at (url_of options image s.now) out.new result }
{
    let apostrophes = options.escape_apostrophes;
    if options.allow_dangerous_protocol {
        return put_sanitized(s, apostrophes, out, at);
    }
    if !image {
        return put_safe(s, Protocols::Link, apostrophes, out, at);
    }
    if options.allow_any_img_src {
        return put_sanitized(s, apostrophes, out, at);
    }
    put_safe(s, Protocols::Image, apostrophes, out, at)
}

// A URL made safe, appended at a place.
fn put_sanitized(s: &[u8], apostrophes: bool, out: &mut [u8], at: usize) -> usize
    ensures { Filled out.old at (sanitize_of apostrophes s.now) out.new result }
{
    let mut w = Writer { bytes: out, at };
    sanitize_uri::sanitize(s, apostrophes, &mut w);
    w.at
}

// The same, or nothing where the scheme is not listed.
fn put_safe(s: &[u8], protocols: Protocols, apostrophes: bool, out: &mut [u8], at: usize) -> usize
    ensures { Filled out.old at (sanitize_with_protocols_of apostrophes (schemes_of protocols) s.now) out.new result }
{
    let mut w = Writer { bytes: out, at };
    sanitize_uri::sanitize_with_protocols(s, protocols, apostrophes, &mut w);
    w.at
}

// The address of an email autolink: with its scheme it is safe, whatever may be dangerous.
pub fn push_mail(
    b: Buffers,
    captures: &mut [u8],
    out: &mut [u8],
    s: &[u8],
    apostrophes: bool,
) -> Buffers
    ensures { PushesMail apostrophes s.now b captures.old out.old result captures.new out.new }
{
    state_buffers::push_by(b, captures, out, |w, at| put_mail(w, at, s, apostrophes))
}

fn put_mail(out: &mut [u8], at: usize, s: &[u8], apostrophes: bool) -> usize
    ensures { Filled out.old at (sanitize_of apostrophes (bytes "mailto:" ++ s.now)) out.new result }
{
    let p = lent::put_all(out, at, b"mailto:");
    put_sanitized(s, apostrophes, out, p)
}

// ---- references

// What a character reference stands for, encoded as `escaping` says.
pub fn push_reference(
    b: Buffers,
    captures: &mut [u8],
    out: &mut [u8],
    names: Names,
    m: Marker,
    s: &[u8],
    escaping: Escaping,
) -> Buffers
    ensures { PushesReference names m s.now escaping b captures.old out.old result captures.new out.new }
{
    state_buffers::push_by(b, captures, out, |w, at| {
        put_reference(w, at, names, m, s, escaping)
    })
}

// What a reference stands for.
fn put_value(out: &mut [u8], names: Names, m: Marker, s: &[u8]) -> usize
    ensures { Filled out.old 0 (or_nothing (reference_for names m s.now)) out.new result }
{
    let mut w = Writer { bytes: out, at: 0 };
    character_reference::put_reference(&mut w, names, m, s);
    w.at
}

// It is four bytes at most.
fn put_reference(
    out: &mut [u8],
    at: usize,
    names: Names,
    m: Marker,
    s: &[u8],
    escaping: Escaping,
) -> usize
    ensures { Filled out.old at (encode_of escaping (or_nothing (reference_for names m s.now))) out.new result }
{
    let mut d = [0u8; 4];
    let n = put_value(&mut d, names, m, s);
    state_buffers::put_encoded(&d[0..n], escaping, out, at)
}

// ---- attributes

// The start of a list, by its first item's value.
pub fn push_start(b: Buffers, captures: &mut [u8], out: &mut [u8], s: &[u8]) -> Buffers
    ensures { PushesStart s.now b captures.old out.old result captures.new out.new }
{
    state_buffers::push_by(b, captures, out, |w, at| put_start(w, at, s))
}

// The alignment of a column, by the extra field of its table's enter.
pub fn push_align(
    b: Buffers,
    captures: &mut [u8],
    out: &mut [u8],
    extra: u64,
    column: usize,
) -> Buffers
    ensures { PushesAlign extra column b captures.old out.old result captures.new out.new }
{
    let a = table_enter(extra).alignment(column);
    state_buffers::push_by(b, captures, out, |w, at| put_align(w, at, a))
}

// The enter of a table: of its fields the extra one alone matters.
pub fn table_enter(extra: u64) -> Event
    ensures { result ≡ enter_of extra }
{
    Event {
        kind: Event::ENTER,
        name: Event::GFM_TABLE,
        before: 0,
        after: 0,
        from: BytePlace(0),
        to: BytePlace(0),
        extra,
    }
}
