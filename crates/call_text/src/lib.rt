// The calls that write a text. Each answers on all inputs, says every byte of the buffer lent to it, and demands nothing of its caller.
#![tactic(auto)]

ghost use Rattle.encode.specs.Encode.{encode_of};
ghost use Rattle.sanitize_uri.specs.Url.{sanitize_of};
ghost use Rattle.sanitize_uri.specs.Protocols.{link_schemes, image_schemes, sanitize_with_protocols_of};
ghost use Rattle.normalize_identifier.specs.Identity.{identity_of};
ghost use Rattle.call_text_answer.specs.Written.{Wrote};

use call_text_answer::{Refusal, write};
use encode_byte::Escaping;
use sanitize_uri::Protocols;

// Escapes a text for HTML; with escaping off only NUL is replaced.
pub fn escape(text: &[u8], escaping: Escaping, out: &mut [u8]) -> Result<usize, Refusal>
    ensures { Wrote text.now (encode_of escaping text.now) out.old out.new result }
{
    write(text, out, |w| encode::encode(text, escaping, w))
}

// Makes a URL safe for an attribute.
pub fn sanitize(url: &[u8], apostrophes: bool, out: &mut [u8]) -> Result<usize, Refusal>
    ensures { Wrote url.now (sanitize_of apostrophes url.now) out.old out.new result }
{
    write(url, out, |w| sanitize_uri::sanitize(url, apostrophes, w))
}

// The same for a link: a URL with another scheme than the six of RULES R11.5 becomes empty.
pub fn sanitize_link(url: &[u8], apostrophes: bool, out: &mut [u8]) -> Result<usize, Refusal>
    ensures { Wrote url.now (sanitize_with_protocols_of apostrophes link_schemes url.now) out.old out.new result }
{
    write(url, out, |w| {
        sanitize_uri::sanitize_with_protocols(url, Protocols::Link, apostrophes, w)
    })
}

// The same for an image, whose schemes are http and https.
pub fn sanitize_image(url: &[u8], apostrophes: bool, out: &mut [u8]) -> Result<usize, Refusal>
    ensures { Wrote url.now (sanitize_with_protocols_of apostrophes image_schemes url.now) out.old out.new result }
{
    write(url, out, |w| {
        sanitize_uri::sanitize_with_protocols(url, Protocols::Image, apostrophes, w)
    })
}

// What a label is compared by.
pub fn identity(label: &[u8], out: &mut [u8]) -> Result<usize, Refusal>
    ensures { Wrote label.now (identity_of label.now) out.old out.new result }
{
    write(
        label,
        out,
        |w| normalize_identifier::normalize_identifier(label, w),
    )
}
