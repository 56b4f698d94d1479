// What is measured alone, beside the Rust: no part of the library that is shipped.
#![tactic(auto)]

ghost use Rattle.std.specs.Prelude.{false, ◌<◌, length};
ghost use Rattle.lent.specs.Fill.{Filled};
ghost use Rattle.encode.specs.Encode.{encode_of};
ghost use Rattle.sanitize_uri.specs.Url.{sanitize_of};
ghost use Rattle.bench_leaves.specs.Numbered.{HasNumber, HasNumberLate};
ghost use Rattle.bench_leaves.specs.Cut.{Cut};

use bundle_parts::Reader;
use encode_byte::Escaping;
use lent::Writer;

// The leaf alone: no test for UTF-8, nothing cleared behind the answer.
#[unsafe(no_mangle)]
pub extern "C" fn leaf_encode(text: &[u8], out: &mut [u8]) -> usize
    ensures { Filled out.old 0 (encode_of Escaping.Html text.now) out.new result }
{
    let mut w = Writer { bytes: out, at: 0 };
    encode::encode(text, Escaping::Html, &mut w);
    w.at
}

#[unsafe(no_mangle)]
pub extern "C" fn leaf_sanitize(url: &[u8], out: &mut [u8]) -> usize
    ensures { Filled out.old 0 (sanitize_of false url.now) out.new result }
{
    let mut w = Writer { bytes: out, at: 0 };
    sanitize_uri::sanitize(url, false, &mut w);
    w.at
}

// Reads a bundle; the answer is the number of RULES R7.1 alone.
#[unsafe(no_mangle)]
pub extern "C" fn leaf_read_bundle(bundle: &[u8], text: &mut [u8], events: &mut [u8]) -> u32
    ensures { HasNumber bundle.now text.old events.old text.new events.new result }
{
    let answer = page::read_bundle(bundle, text, events);
    bundle_read::number(answer)
}

// Reads a bundle in parts of so many bytes, then says the end; the answer is its number, or 255, which it never is.
#[unsafe(no_mangle)]
pub extern "C" fn leaf_read_parts(
    bundle: &[u8],
    size: usize,
    text: &mut [u8],
    events: &mut [u8],
) -> u32
    ensures { HasNumberLate bundle.now text.old events.old text.new events.new result }
{
    let fed = feed_all(bundle, size, text, events);
    let ended = page::end_bundle(fed, text, events);
    let so_far = page::bundle_so_far(ended);
    let Some(answer) = so_far else {
        return 255;
    };
    bundle_read::number(answer)
}

// Parts of so many bytes, a byte where it is none.
// Counted by hand: the promise speaks of the bytes before a place, which chunks do not name.
fn feed_all(bundle: &[u8], size: usize, text: &mut [u8], events: &mut [u8]) -> Reader
    ensures { Cut bundle.now (length bundle.now) text.old events.old text.new events.new result }
{
    let mut reader = page::bundle_reader();
    let mut at = 0;
    while at < bundle.len() {
        let end = at + size.max(1).min(bundle.len() - at);
        reader = page::feed_bundle(reader, &bundle[at..end], text, events);
        at = end;
    }
    reader
}
