// The public calls. Each answers on all inputs, says every byte of the buffer lent to it, and demands nothing of its caller.
#![tactic(auto)]

ghost use Rattle.std.specs.Prelude.{ℕ, List, ◌≡◌};
ghost use Rattle.encode.specs.Encode.{encode_of};
ghost use Rattle.sanitize_uri.specs.Url.{sanitize_of};
ghost use Rattle.sanitize_uri.specs.Protocols.{link_schemes, image_schemes, sanitize_with_protocols_of};
ghost use Rattle.normalize_identifier.specs.Identity.{identity_of};
ghost use Rattle.bundle_read.specs.Read.{HasRead};
ghost use Rattle.bundle_writer.specs.Packed.{HasPacked};
ghost use Rattle.bundle_parts.specs.Feed.{stand_of, start_of, feed_of, end_of};
ghost use Rattle.check_list.specs.Checked.{Checks};
ghost use Rattle.call_build.specs.Build.{Builds};
ghost use Rattle.call_text_answer.specs.Written.{number_of, value_of, Wrote};
ghost use Rattle.call_normalize.specs.Normalized.{HasNormalized};
ghost use Rattle.call_links_answer.specs.Listed.{Lists};

use bundle_parts::Reader;
use call_normalize::Url;
use call_text_answer::Refusal;
use encode_byte::Escaping;

// Escapes a text for HTML; with escaping off only NUL is replaced.
pub fn escape(text: &[u8], escaping: Escaping, out: &mut [u8]) -> Result<usize, Refusal>
    ensures { Wrote text.now (encode_of escaping text.now) out.old out.new result }
{
    call_text::escape(text, escaping, out)
}

// Makes a URL safe for an attribute; `'` is escaped where it is asked for.
pub fn sanitize(url: &[u8], apostrophes: bool, out: &mut [u8]) -> Result<usize, Refusal>
    ensures { Wrote url.now (sanitize_of apostrophes url.now) out.old out.new result }
{
    call_text::sanitize(url, apostrophes, out)
}

// The same for a link: a URL with another scheme than the six of RULES R11.5 becomes empty.
pub fn sanitize_link(url: &[u8], apostrophes: bool, out: &mut [u8]) -> Result<usize, Refusal>
    ensures { Wrote url.now (sanitize_with_protocols_of apostrophes link_schemes url.now) out.old out.new result }
{
    call_text::sanitize_link(url, apostrophes, out)
}

// The same for an image, whose schemes are http and https.
pub fn sanitize_image(url: &[u8], apostrophes: bool, out: &mut [u8]) -> Result<usize, Refusal>
    ensures { Wrote url.now (sanitize_with_protocols_of apostrophes image_schemes url.now) out.old out.new result }
{
    call_text::sanitize_image(url, apostrophes, out)
}

// Percent-encodes a URL, and says how many characters it visited (RULES R11.7).
pub fn normalize(url: &[u8], out: &mut [u8]) -> Result<Url, Refusal>
    ensures { HasNormalized url.now out.old out.new result }
{
    call_normalize::normalize(url, out)
}

// A whole list of links: one text with the places where its URLs end, and for each the length and the bytes that `sanitize_link` gives.
pub fn sanitize_links(
    text: &[u8],
    ends: &[u32],
    apostrophes: bool,
    out: &mut [u8],
    lengths: &mut [u32],
) -> Result<usize, call_links_answer::Refusal>
    ensures { Lists apostrophes text.now ends.now out.old lengths.old out.new lengths.new result }
{
    call_links::sanitize_links(text, ends, apostrophes, out, lengths)
}

// What a label is compared by.
pub fn identity(label: &[u8], out: &mut [u8]) -> Result<usize, Refusal>
    ensures { Wrote label.now (identity_of label.now) out.old out.new result }
{
    call_text::identity(label, out)
}

// Whether a text and its events meet the rules: RULES R7, refusals 1 to 7.
pub fn check(text: &[u8], events: &[u8]) -> Result<(), check_list::Refusal>
    ensures { Checks text.now events.now result }
{
    check_list::check(text, events)
}

// The page of a note with zeros behind it; or a refusal, with nothing in the output. Every work byte is zero afterwards.
pub fn build(
    text: &[u8],
    events: &[u8],
    options: machine::Options,
    out: &mut [u8],
    work: &mut [u8],
) -> Result<usize, call_build_answer::Refusal>
    ensures { Builds text.now events.now options out.old work.old out.new work.new result }
{
    call_build::build(text, events, options, out, work)
}

// Reads the text and the events of a note bundle.
pub fn read_bundle(
    bundle: &[u8],
    text: &mut [u8],
    events: &mut [u8],
) -> Result<bundle_read::Contents, bundle_block::Refusal>
    ensures { HasRead bundle.now text.old events.old text.new events.new result }
{
    bundle_read::read(bundle, text, events)
}

// Writes the note bundle of a text, events and an edition, with zeros behind it; or a refusal, with nothing in the output.
pub fn write_bundle(
    text: &[u8],
    events: &[u8],
    edition: u32,
    out: &mut [u8],
) -> Result<usize, bundle_writer::WriteRefusal>
    ensures { HasPacked text.now events.now edition out.old out.new result }
{
    bundle_writer::write(text, events, edition, out)
}

// A reader for a note bundle that comes in parts, before the first of them.
pub fn bundle_reader() -> Reader
    ensures { (t e : List ℕ) → stand_of result t e ≡ start_of t e }
{
    bundle_parts::new()
}

// The next part of a bundle, of any length. Both buffers are lent at each call, as the call before left them; before the first call
// they may hold anything.
pub fn feed_bundle(reader: Reader, part: &[u8], text: &mut [u8], events: &mut [u8]) -> Reader
    ensures { stand_of result text.new events.new ≡ feed_of (stand_of reader text.old events.old) part.now }
{
    bundle_parts::feed(reader, part, text, events)
}

// No part follows.
pub fn end_bundle(reader: Reader, text: &mut [u8], events: &mut [u8]) -> Reader
    ensures { stand_of result text.new events.new ≡ end_of (stand_of reader text.old events.old) }
{
    bundle_parts::end(reader, text, events)
}

// The answer, or none while more is wanted.
pub fn bundle_so_far(reader: Reader) -> Option<Result<bundle_read::Contents, bundle_block::Refusal>>
    ensures { result ≡ reader.state.progress }
{
    bundle_parts::so_far(reader)
}

// An answer's number (RULES R7.1).
pub fn number(w: Result<usize, Refusal>) -> u32
    ensures { result ≡ number_of w }
{
    call_text_answer::number(w)
}

// The length, or a refusal's place, which is 0.
pub fn value(w: Result<usize, Refusal>) -> usize
    ensures { result ≡ value_of w }
{
    call_text_answer::value(w)
}
