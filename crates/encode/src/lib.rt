// Text made safe for HTML, as `encode.rs`. Sixteen bytes that all stay are copied at once, others one by one.
#![tactic(auto)]

ghost use Rattle.std.specs.Prelude.{ℕ, Bool, ◌≡◌};
ghost use Rattle.lent.specs.Bytes.{any};
ghost use Rattle.lent.specs.Writer.{Writes};
ghost use Rattle.encode_byte.specs.Private.{is_markup, is_special};
ghost use Rattle.encode.specs.Encode.{encode_of};
ghost use Rattle.encode.specs.Private.{IsTest};

use encode_byte::Escaping;
use lent::Writer;

// So many bytes are looked at together.
const BLOCK: usize = 16;

// Appends `value`, with NUL replaced and the bytes that `escaping` says as character references.
pub fn encode(value: &[u8], escaping: Escaping, out: &mut Writer)
    ensures { Writes (encode_of escaping value.now) out.old out.new }
{
    let (blocks, rest) = value.as_chunks::<BLOCK>();
    for block in blocks {
        put_block(block, escaping, out);
    }
    put_bytes(rest, escaping, out);
}

fn put_block(block: &[u8; BLOCK], escaping: Escaping, out: &mut Writer)
    ensures { Writes (encode_of escaping block.now) out.old out.new }
{
    if has_special(block, escaping) {
        put_bytes(block, escaping, out);
        return;
    }
    out.put_exact::<BLOCK>(block);
}

fn put_bytes(value: &[u8], escaping: Escaping, out: &mut Writer)
    ensures { Writes (encode_of escaping value.now) out.old out.new }
{
    for &b in value {
        encode_byte::put_byte(b, escaping, out);
    }
}

// Whether some byte of a block becomes something else. Apostrophes are looked for only where they are escaped.
fn has_special(block: &[u8; BLOCK], escaping: Escaping) -> bool
    ensures { result ≡ any (is_special escaping) block.now }
{
    let html = encode_byte::escapes_html(escaping);
    if has_any(block, |b| is_markup(b, html)) {
        return true;
    }
    if encode_byte::escapes_apostrophes(escaping) {
        return has_any(block, |b| b == b'\'');
    }
    false
}

// Whether a byte does, by comparisons: sixteen at a time are a few instructions.
fn is_markup(b: u8, html: bool) -> bool
    ensures { result ≡ is_markup html b }
{
    (b == 0) | (html & ((b == 34) | (b == 38) | (b == 60) | (b == 62)))
}

// Whether some byte of a block passes a test. It looks at each, so that the compiler can look at all at once.
pub fn has_any<F: Fn(u8) -> bool>(block: &[u8], test: F) -> bool
    requires { F.IsAlwaysCallable test }
    ensures { (f : ℕ → Bool) → IsTest (F.post test) f → result ≡ any f block.now }
{
    let mut found = false;
    for &b in block {
        found = found | test(b);
    }
    found
}
