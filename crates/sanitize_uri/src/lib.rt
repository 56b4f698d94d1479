// URLs made safe, as `sanitize_uri.rs`: percent-encoded, then encoded for HTML, and only with a scheme that is listed.
#![tactic(auto)]

ghost use Rattle.std.specs.Prelude.{◌≡◌};
ghost use Rattle.lent.specs.Bytes.{same, mapped, lower, listed};
ghost use Rattle.lent.specs.Writer.{Writes};
ghost use Rattle.sanitize_uri.specs.Url.{sanitize_of};
ghost use Rattle.sanitize_uri.specs.Protocols.{colon_of, schemes_of, is_allowed, sanitize_with_protocols_of};

use lent::Writer;

// Which schemes a URL may have.
#[derive(Clone, Copy)]
pub enum Protocols {
    // `a[href]`
    Link,
    // `img[src]`
    Image,
}

// Appends the URL, percent-encoded and safe for an attribute; `'` is escaped where it is asked for.
pub fn sanitize(value: &[u8], apostrophes: bool, out: &mut Writer)
    ensures { Writes (sanitize_of apostrophes value.now) out.old out.new }
{
    let escaping = encode_byte::escaping_of(true, apostrophes);
    normalize_uri::put_url(value, escaping, out);
}

// The same, or nothing where the URL has a scheme that is not listed.
pub fn sanitize_with_protocols(
    value: &[u8],
    protocols: Protocols,
    apostrophes: bool,
    out: &mut Writer,
)
    ensures { Writes (sanitize_with_protocols_of apostrophes (schemes_of protocols) value.now) out.old out.new }
{
    if is_allowed(value, protocols) {
        sanitize(value, apostrophes, out);
    }
}

fn is_allowed(value: &[u8], protocols: Protocols) -> bool
    ensures { result ≡ is_allowed (schemes_of protocols) value.now }
{
    match scheme_colon(value) {
        Some(n) => is_listed(&value[0..n], protocols),
        None => true,
    }
}

// The place of a colon that comes before the first `?`, `#` or `/`.
fn scheme_colon(value: &[u8]) -> Option<usize>
    ensures { result ≡ colon_of value.now }
{
    for (i, &b) in value.iter().enumerate() {
        match b {
            b':' => return Some(i),
            b'#' | b'/' | b'?' => return None,
            _ => {}
        }
    }
    None
}

fn is_listed(scheme: &[u8], protocols: Protocols) -> bool
    ensures { result ≡ listed (schemes_of protocols) (mapped lower scheme.now) }
{
    match protocols {
        Protocols::Link => is_link_scheme(scheme),
        Protocols::Image => is_web_scheme(scheme),
    }
}

fn is_web_scheme(scheme: &[u8]) -> bool
    ensures { result ≡ listed (schemes_of Protocols.Image) (mapped lower scheme.now) }
{
    is_word(scheme, b"http") | is_word(scheme, b"https")
}

fn is_link_scheme(scheme: &[u8]) -> bool
    ensures { result ≡ listed (schemes_of Protocols.Link) (mapped lower scheme.now) }
{
    is_word(scheme, b"http")
        | is_word(scheme, b"https")
        | is_word(scheme, b"irc")
        | is_word(scheme, b"ircs")
        | is_word(scheme, b"mailto")
        | is_word(scheme, b"xmpp")
}

// Whether `scheme` is the word, letters in either case.
fn is_word(scheme: &[u8], word: &[u8]) -> bool
    ensures { result ≡ same (mapped lower scheme.now) (mapped lower word.now) }
{
    scheme.eq_ignore_ascii_case(word)
}
