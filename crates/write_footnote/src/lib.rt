// What is written of a footnote: its address, a call, and the way back to each call behind its body. And how a body ends.
#![tactic(auto)]

ghost use Rattle.std.specs.Prelude.{true, [], ◌∷◌, ◌≡◌, get_or, length, take, drop, ◌+◌, ◌≤◌};
ghost use Rattle.lent.specs.Bytes.{lower, mapped, bytes, same};
ghost use Rattle.lent.specs.Fill.{Filled};
ghost use Rattle.encode_byte.specs.Byte.{escaping_of};
ghost use Rattle.encode.specs.Encode.{encode_of};
ghost use Rattle.url_byte.specs.Private.{byte_of};
ghost use Rattle.normalize_identifier.specs.Left.{left};
ghost use Rattle.machine.specs.Footnote.{address_of, again_text, call_text};
ghost use Rattle.machine.specs.Buffers.{push, is_eol};
ghost use Rattle.machine.specs.Section.{backreference, backreferences, body_end, ends_paragraph, sup_text};
ghost use Rattle.state_buffers.specs.Stand.{Keeps};
ghost use Rattle.write_footnote.specs.Address.{address_text};
ghost use Rattle.write_footnote.specs.Pieces.{back_href, back_end, back_text, call_href, call_id, call_number, next_reference};

use lent::Writer;
use normalize_identifier::Identity;
use state_buffers::Buffers;

// What an address is made of: a footnote's label, and whether apostrophes are escaped.
#[derive(Clone, Copy)]
pub struct Address<'a> {
    pub label: &'a [u8],
    pub apostrophes: bool,
}

// ---- the address: the label's identity, lower-cased and sanitized, read off the label byte by byte

// Appends the address of a label. Nothing is kept of the identity, however long it is.
pub fn put_address(address: Address, out: &mut [u8], at: usize) -> usize
    ensures { Filled out.old at (address_text address.entry) out.new result }
{
    let mut rest = Identity::new(address.label);
    let mut end = at;
    while let Some(b) = rest.next() {
        end = put_byte(b, rest, address.apostrophes, out, end);
    }
    end
}

// The byte `b` of the identity, by what is left of that: a `%` looks at the two bytes behind it.
fn put_byte(b: u8, mut rest: Identity, apostrophes: bool, out: &mut [u8], at: usize) -> usize
    ensures { Filled out.old at (encode_of (escaping_of true apostrophes) (byte_of (mapped lower (b ∷ left rest.entry)))) out.new result }
{
    let l = b.to_ascii_lowercase();
    if l != b'%' {
        return put_before(l, 0, 0, apostrophes, out, at);
    }
    // nothing is behind an end, and to look for it would pass the same blanks again
    let Some(x) = rest.next() else {
        return put_before(l, 0, 0, apostrophes, out, at);
    };
    let x = x.to_ascii_lowercase();
    let y = rest.next().unwrap_or(0).to_ascii_lowercase();
    put_before(l, x, y, apostrophes, out, at)
}

// The byte `b` before `x` and `y`. A zero stands for a byte that is not there: like it, it is no letter or digit.
fn put_before(b: u8, x: u8, y: u8, apostrophes: bool, out: &mut [u8], at: usize) -> usize
    ensures { Filled out.old at (encode_of (escaping_of true apostrophes) (byte_of (b ∷ x ∷ y ∷ []))) out.new result }
{
    let s = [b, x, y];
    let escaping = encode_byte::escaping_of(true, apostrophes);
    let mut w = Writer { bytes: out, at };
    url_byte::put_url_byte(&s, 0, escaping, &mut w);
    w.at
}

// ---- a call

// A call to the newest buffer.
pub fn push_call(
    b: Buffers,
    captures: &mut [u8],
    out: &mut [u8],
    label: &[u8],
    apostrophes: bool,
    number: usize,
    times: usize,
) -> Buffers
    ensures { Keeps (push (call_text (address_of apostrophes label.now) number times)) b captures.old out.old result captures.new out.new }
{
    let address = Address { label, apostrophes };
    let mut r = b;
    if b.depth == 0 {
        r.page = put_call(address, number, times, out, b.page);
        return r;
    }
    r.end = put_call(address, number, times, captures, b.end);
    r
}

// Appends the call of the footnote with a number, which is called for the `times`th time.
pub fn put_call(address: Address, number: usize, times: usize, out: &mut [u8], at: usize) -> usize
    ensures { Filled out.old at (call_text (address_text address.entry) number times) out.new result }
{
    let p = put_call_href(address, out, at);
    let q = put_call_id(address, times, out, p);
    put_call_number(number, out, q)
}

fn put_call_href(address: Address, out: &mut [u8], at: usize) -> usize
    ensures { Filled out.old at (call_href (address_text address.entry)) out.new result }
{
    let p = lent::put_all(out, at, b"<sup><a href=\"#user-content-fn-");
    put_address(address, out, p)
}

fn put_call_id(address: Address, times: usize, out: &mut [u8], at: usize) -> usize
    ensures { Filled out.old at (call_id (address_text address.entry) times) out.new result }
{
    let p = lent::put_all(out, at, b"\" id=\"user-content-fnref-");
    let q = put_address(address, out, p);
    put_again(times, out, q)
}

fn put_call_number(number: usize, out: &mut [u8], at: usize) -> usize
    ensures { Filled out.old at (call_number number) out.new result }
{
    let p = put_described(out, at);
    let q = write_pieces::put_decimal(out, p, number);
    lent::put_all(out, q, b"</a></sup>")
}

fn put_described(out: &mut [u8], at: usize) -> usize
    ensures { Filled out.old at (bytes "\" data-footnote-ref=\"\" aria-describedby=\"footnote-label\">") out.new result }
{
    lent::put_all(
        out,
        at,
        b"\" data-footnote-ref=\"\" aria-describedby=\"footnote-label\">",
    )
}

// Nothing for the first time, then -2, -3, ..
fn put_again(times: usize, out: &mut [u8], at: usize) -> usize
    ensures { Filled out.old at (again_text times) out.new result }
{
    if times <= 1 {
        return at;
    }
    let p = lent::put(out, at, b'-');
    write_pieces::put_decimal(out, p, times)
}

// ---- the way back

// Appends a backreference for each call. The address is read off the label each time: it is written as often.
pub fn put_backreferences(address: Address, times: usize, out: &mut [u8], at: usize) -> usize
    ensures { Filled out.old at (backreferences (address_text address.entry) times) out.new result }
{
    let mut r = at;
    for i in 0..times {
        r = put_next(address, i + 1, out, r);
    }
    r
}

// The backreference of the nth call, with a space between two.
fn put_next(address: Address, n: usize, out: &mut [u8], at: usize) -> usize
    ensures { Filled out.old at (next_reference (address_text address.entry) n) out.new result }
{
    if n <= 1 {
        return put_backreference(address, n, out, at);
    }
    let p = lent::put(out, at, b' ');
    put_backreference(address, n, out, p)
}

fn put_backreference(address: Address, n: usize, out: &mut [u8], at: usize) -> usize
    ensures { Filled out.old at (backreference (address_text address.entry) n) out.new result }
{
    let p = put_back_href(address, n, out, at);
    put_back_end(n, out, p)
}

fn put_back_href(address: Address, n: usize, out: &mut [u8], at: usize) -> usize
    ensures { Filled out.old at (back_href (address_text address.entry) n) out.new result }
{
    let p = lent::put_all(out, at, b"<a href=\"#user-content-fnref-");
    let q = put_address(address, out, p);
    put_again(n, out, q)
}

fn put_back_end(n: usize, out: &mut [u8], at: usize) -> usize
    ensures { Filled out.old at (back_end n) out.new result }
{
    let p = put_back_text(out, at);
    let q = put_sup(n, out, p);
    lent::put_all(out, q, b"</a>")
}

// The last three bytes are the arrow, U+21A9.
fn put_back_text(out: &mut [u8], at: usize) -> usize
    ensures { Filled out.old at back_text out.new result }
{
    lent::put_all(
        out,
        at,
        b"\" data-footnote-backref=\"\" aria-label=\"Back to content\" class=\"data-footnote-backref\">\xE2\x86\xA9",
    )
}

fn put_sup(n: usize, out: &mut [u8], at: usize) -> usize
    ensures { Filled out.old at (sup_text n) out.new result }
{
    if n <= 1 {
        return at;
    }
    let p = lent::put_all(out, at, b"<sup>");
    let q = write_pieces::put_decimal(out, p, n);
    lent::put_all(out, q, b"</sup>")
}

// ---- a body

// How many bytes stand before the line endings at the end.
pub fn body_end(body: &[u8]) -> usize
    ensures { result ≡ body_end body.now }
{
    for i in (0..body.len()).rev() {
        if !is_eol(body[i]) {
            return i + 1;
        }
    }
    0
}

// state_buffers has this too, for itself: a public one would say no more than the two bytes do.
fn is_eol(b: u8) -> bool
    ensures { result ≡ is_eol b }
{
    matches!(b, b'\n' | b'\r')
}

// Whether `</p>` stands before them.
pub fn ends_paragraph(body: &[u8]) -> bool
    ensures { result ≡ ends_paragraph body.now }
{
    let end = body_end(body);
    if end <= 3 {
        return false;
    }
    has_close(body, end - 4)
}

fn has_close(body: &[u8], i: usize) -> bool
    requires { i + 4 ≤ length body.now }
    ensures { result ≡ same (take 4 (drop i body.now)) (bytes "</p>") }
{
    (body[i] == b'<') & (body[i + 1] == b'/') & (body[i + 2] == b'p') & (body[i + 3] == b'>')
}
