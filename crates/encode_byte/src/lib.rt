// One byte made safe for HTML, as `encode.rs`.
#![tactic(auto)]

ghost use Rattle.std.specs.Prelude.{◌≡◌};
ghost use Rattle.lent.specs.Writer.{Writes};
ghost use Rattle.encode_byte.specs.Byte.{escapes_html, escapes_apostrophes, escaping_of, encode_byte};
ghost use Rattle.encode_byte.specs.Private.{is_special, special_mask};

use lent::Writer;

// What becomes a character reference. NUL is replaced in any case.
#[derive(Clone, Copy)]
pub enum Escaping {
    Off,
    // `&`, `<`, `>` and `"`
    Html,
    // `'` too
    HtmlAndApostrophes,
}

pub fn escaping_of(html: bool, apostrophes: bool) -> Escaping
    ensures { result ≡ escaping_of html apostrophes }
{
    match (html, apostrophes) {
        (false, _) => Escaping::Off,
        (true, false) => Escaping::Html,
        (true, true) => Escaping::HtmlAndApostrophes,
    }
}

pub fn escapes_html(escaping: Escaping) -> bool
    ensures { result ≡ escapes_html escaping }
{
    match escaping {
        Escaping::Off => false,
        Escaping::Html | Escaping::HtmlAndApostrophes => true,
    }
}

pub fn escapes_apostrophes(escaping: Escaping) -> bool
    ensures { result ≡ escapes_apostrophes escaping }
{
    match escaping {
        Escaping::Off | Escaping::Html => false,
        Escaping::HtmlAndApostrophes => true,
    }
}

// Appends one byte, encoded.
pub fn put_byte(b: u8, escaping: Escaping, out: &mut Writer)
    ensures { Writes (encode_byte escaping b) out.old out.new }
{
    if is_special(b, escaping) {
        put_reference(b, out);
        return;
    }
    out.put(b);
}

// The texts have a function of their own: it alone pays for having them at hand.
fn put_reference(b: u8, out: &mut Writer)
    ensures { Writes (encode_byte Escaping.HtmlAndApostrophes b) out.old out.new }
{
    match b {
        0 => out.put_all(b"\xEF\xBF\xBD"),
        b'&' => out.put_all(b"&amp;"),
        b'<' => out.put_all(b"&lt;"),
        b'>' => out.put_all(b"&gt;"),
        b'"' => out.put_all(b"&quot;"),
        b'\'' => out.put_all(b"&#39;"),
        _ => out.put(b),
    }
}

// Whether a byte becomes something else, by a mask of the bytes below 63.
fn is_special(b: u8, escaping: Escaping) -> bool
    ensures { result ≡ is_special escaping b }
{
    lent::has_bit(special_mask(escaping), b.min(63))
}

// NUL is bit 0; then the bits 34, 38, 60 and 62; then 39.
fn special_mask(escaping: Escaping) -> u64
    ensures { result ≡ special_mask escaping }
{
    match escaping {
        Escaping::Off => 1,
        Escaping::Html => 0x5000004400000001,
        Escaping::HtmlAndApostrophes => 0x500000c400000001,
    }
}
