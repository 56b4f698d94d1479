// The footnote section behind the page, when the last event is done: no capture is open then, and all of it goes to the page.
// Where something has no room its place is past the buffer's end, and stays there.
#![tactic(auto)]

ghost use Rattle.std.specs.Prelude.{◌≤◌, ◌++◌, length};
ghost use Rattle.lent.specs.Fill.{Filled};
ghost use Rattle.machine.specs.Buffers.{ending_bytes};
ghost use Rattle.machine.specs.Section.{backreferences};
ghost use Rattle.write_footnote.specs.Address.{address_text};
ghost use Rattle.write_section.specs.Pages.{ended, heading_text, head_page, tail_text, item_start, split_body, behind_body, body_page, item_end, item_page};
ghost use Rattle.write_section.specs.Clauses.{WritesSection, Writes, WritesFound, WritesCall, WritesItems};

use machine::{Ending, Fixed};
use state_kept::Kept;
use write_footnote::Address;

// Writes the section behind the page that stands in `out` up to `at`.
pub fn footnote_section(
    k: Kept,
    fixed: Fixed,
    text: &[u8],
    work: &[u8],
    footnotes: &[usize],
    calls: &[usize],
    out: &mut [u8],
    at: usize,
) -> usize
    ensures { WritesSection k fixed text.now work.now footnotes.now calls.now out.old at out.new result }
{
    let ending = fixed.ending;
    let p = put_head(ending, out, at);
    let q = put_items(k, fixed, text, work, footnotes, calls, out, p);
    put_tail(ending, out, q)
}

// ---- lines

fn put_on_line(ending: Ending, s: &[u8], out: &mut [u8], at: usize) -> usize
    ensures { Filled out.old at (ending_bytes ending ++ s.now) out.new result }
{
    let p = state_buffers::put_ending(ending, out, at);
    lent::put_all(out, p, s)
}

fn put_line(ending: Ending, s: &[u8], out: &mut [u8], at: usize) -> usize
    ensures { Filled out.old at (s.now ++ ending_bytes ending) out.new result }
{
    let p = lent::put_all(out, at, s);
    state_buffers::put_ending(ending, out, p)
}

// A line ending, unless the page is empty or ends in one.
fn end_line(ending: Ending, out: &mut [u8], at: usize) -> usize
    ensures { Writes (ended ending) out.old at out.new result }
{
    if state_buffers::ends_line(out, 0, at) {
        return at;
    }
    state_buffers::put_ending(ending, out, at)
}

// ---- head and tail

fn put_head(ending: Ending, out: &mut [u8], at: usize) -> usize
    ensures { Writes (head_page ending) out.old at out.new result }
{
    let p = end_line(ending, out, at);
    let q = put_heading(ending, out, p);
    lent::put_all(out, q, b"<ol>")
}

fn put_heading(ending: Ending, out: &mut [u8], at: usize) -> usize
    ensures { Filled out.old at (heading_text ++ ending_bytes ending) out.new result }
{
    put_line(
        ending,
        b"<section data-footnotes=\"\" class=\"footnotes\"><h2 id=\"footnote-label\" class=\"sr-only\">Footnotes</h2>",
        out,
        at,
    )
}

fn put_tail(ending: Ending, out: &mut [u8], at: usize) -> usize
    ensures { Filled out.old at (tail_text ending) out.new result }
{
    let p = put_on_line(ending, b"</ol>", out, at);
    let q = put_on_line(ending, b"</section>", out, p);
    state_buffers::put_ending(ending, out, q)
}

// ---- an item

fn put_item_start(ending: Ending, address: Address, out: &mut [u8], at: usize) -> usize
    ensures { Filled out.old at (item_start ending (address_text address.entry)) out.new result }
{
    let p = put_on_line(ending, b"<li id=\"user-content-fn-", out, at);
    let q = write_footnote::put_address(address, out, p);
    put_line(ending, b"\">", out, q)
}

// The body up to a place, the way back behind a space, and the rest of the body.
fn put_split(
    address: Address,
    times: usize,
    body: &[u8],
    cut: usize,
    out: &mut [u8],
    at: usize,
) -> usize
    requires { cut ≤ length body.now }
    ensures { Filled out.old at (split_body body.now cut (backreferences (address_text address.entry) times)) out.new result }
{
    let (before, after) = body.split_at(cut);
    let p = lent::put_all(out, at, before);
    let q = lent::put(out, p, b' ');
    let m = write_footnote::put_backreferences(address, times, out, q);
    lent::put_all(out, m, after)
}

fn put_behind(
    ending: Ending,
    address: Address,
    times: usize,
    body: &[u8],
    out: &mut [u8],
    at: usize,
) -> usize
    ensures { Writes (behind_body ending body.now (backreferences (address_text address.entry) times)) out.old at out.new result }
{
    let p = lent::put_all(out, at, body);
    let q = end_line(ending, out, p);
    write_footnote::put_backreferences(address, times, out, q)
}

// The way back goes into a paragraph at the end, or behind the body.
fn put_body(
    ending: Ending,
    address: Address,
    times: usize,
    body: &[u8],
    out: &mut [u8],
    at: usize,
) -> usize
    ensures { Writes (body_page ending body.now (backreferences (address_text address.entry) times)) out.old at out.new result }
{
    if write_footnote::ends_paragraph(body) {
        let end = write_footnote::body_end(body);
        return put_split(address, times, body, end - 4, out, at);
    }
    put_behind(ending, address, times, body, out, at)
}

fn put_item_end(ending: Ending, out: &mut [u8], at: usize) -> usize
    ensures { Writes (item_end ending) out.old at out.new result }
{
    let p = end_line(ending, out, at);
    lent::put_all(out, p, b"</li>")
}

fn put_item(
    fixed: Fixed,
    label: &[u8],
    times: usize,
    body: &[u8],
    out: &mut [u8],
    at: usize,
) -> usize
    ensures { Writes (item_page fixed label.now times body.now) out.old at out.new result }
{
    let ending = fixed.ending;
    let address = Address {
        label,
        apostrophes: fixed.apostrophes,
    };
    let p = put_item_start(ending, address, out, at);
    let q = put_body(ending, address, times, body, out, p);
    put_item_end(ending, out, q)
}

// ---- the items

// The item of a label whose body is in row j of the footnotes.
fn put_found(
    fixed: Fixed,
    label: &[u8],
    times: usize,
    work: &[u8],
    footnotes: &[usize],
    j: usize,
    out: &mut [u8],
    at: usize,
) -> usize
    ensures { WritesFound fixed label.now times work.now footnotes.now j out.old at out.new result }
{
    if work.len() != regions::WORK {
        return at;
    }
    let place = state_kept::footnote_place(footnotes, j);
    let n = state_kept::footnote_length(footnotes, j);
    if regions::SIZE < place {
        return at;
    }
    if regions::SIZE - place < n {
        return at;
    }
    let from = regions::KEPT_AT + place;
    let to = from + n;
    let body = &work[from..to];
    put_item(fixed, label, times, body, out, at)
}

// The item of the ith call.
fn put_called(
    k: Kept,
    fixed: Fixed,
    text: &[u8],
    work: &[u8],
    footnotes: &[usize],
    calls: &[usize],
    i: usize,
    out: &mut [u8],
    at: usize,
) -> usize
    ensures { WritesCall k fixed text.now work.now footnotes.now calls.now i out.old at out.new result }
{
    let from = state_kept::call_from(calls, i);
    let to = state_kept::call_to(calls, i);
    if to < from {
        return at;
    }
    if text.len() < to {
        return at;
    }
    let times = state_kept::times_at(calls, i);
    let label = &text[from..to];
    let found = state_kept::find_footnote(k, text, from, to, footnotes);
    match found {
        Some(j) => put_found(fixed, label, times, work, footnotes, j, out, at),
        None => at,
    }
}

fn put_items(
    k: Kept,
    fixed: Fixed,
    text: &[u8],
    work: &[u8],
    footnotes: &[usize],
    calls: &[usize],
    out: &mut [u8],
    at: usize,
) -> usize
    ensures { WritesItems k fixed text.now work.now footnotes.now calls.now out.old at out.new result }
{
    let mut r = at;
    for i in 0..k.calls {
        r = put_called(k, fixed, text, work, footnotes, calls, i, out, r);
    }
    r
}
