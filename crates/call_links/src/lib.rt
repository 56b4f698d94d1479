// The call that takes a list of links: one text, the places where its URLs end, and for each the length and the bytes.
#![tactic(auto)]

ghost use Rattle.std.specs.Prelude.{◌≡◌, length};
ghost use Rattle.lent.specs.Fill.{Filled};
ghost use Rattle.call_links_answer.specs.Links.{link_of};
ghost use Rattle.call_links_answer.specs.Listed.{Lists, taken_of};

use call_links_answer::Refusal;
use lent::Writer;
use sanitize_uri::Protocols;

// Makes each URL of a list safe for a link, as single calls would (RULES R22).
pub fn sanitize_links(
    text: &[u8],
    ends: &[u32],
    apostrophes: bool,
    out: &mut [u8],
    lengths: &mut [u32],
) -> Result<usize, Refusal>
    ensures { Lists apostrophes text.now ends.now out.old lengths.old out.new lengths.new result }
{
    match call_links_answer::take_list(text, ends, lengths.len()) {
        Ok(()) => write(text, ends, apostrophes, out, lengths),
        Err(refusal) => call_links_answer::refuse(out, lengths, Err(refusal)),
    }
}

// A list that is taken: refused where a URL has no room, or written and ended.
fn write(
    text: &[u8],
    ends: &[u32],
    apostrophes: bool,
    out: &mut [u8],
    lengths: &mut [u32],
) -> Result<usize, Refusal>
    requires { taken_of text.now ends.now (length lengths.old) ≡ Ok tt }
    ensures { Lists apostrophes text.now ends.now out.old lengths.old out.new lengths.new result }
{
    let mut from: usize = 0;
    let mut at: usize = 0;
    for (i, end) in ends.iter().enumerate() {
        let end = *end as usize;
        let behind = append(&text[from..end], apostrophes, out, at);
        if out.len() < behind {
            return call_links_answer::refuse(out, lengths, Err(Refusal::NoRoom(i)));
        }
        lengths[i] = (behind - at) as u32;
        from = end;
        at = behind;
    }
    call_links_answer::finish(out, lengths, at, ends.len())
}

// What a single call appends: the one place that sanitizes.
fn append(url: &[u8], apostrophes: bool, out: &mut [u8], at: usize) -> usize
    ensures { Filled out.old at (link_of apostrophes url.now) out.new result }
{
    let mut written = Writer { bytes: out, at };
    sanitize_uri::sanitize_with_protocols(url, Protocols::Link, apostrophes, &mut written);
    written.at
}
