// Handlers of atx headings, by their Rust names.
#![tactic(auto)]

ghost use Rattle.machine.specs.Words.{rank, keep_rank};
ghost use Rattle.machine.specs.OnHeading.{on_exit_heading_atx_sequence, on_exit_heading_atx, on_exit_heading_atx_text};
ghost use Rattle.state_context.specs.Rel.{Any, Sees, Keeps, SetsFor, Takes};

use event::Event;
use state_context::Context;

// ---- headings

// The rank of a heading is the length of its sequence.
fn keep_rank(c: Context, text: &[u8], e: Event) -> Context
    ensures { SetsFor (Sees text.now e) keep_rank c result }
{
    let Some(s) = text.get(e.from.0..e.to.0) else {
        return c;
    };
    state_context::with_rank(c, Some(s.len()))
}

// The rank that waits, in decimal.
fn push_rank(c: Context, captures: &mut [u8], out: &mut [u8]) -> Context
    ensures { Keeps Any rank c captures.old out.old result captures.new out.new }
{
    let Some(n) = c.rank else {
        return c;
    };
    let mut r = c;
    r.buffers = write_pieces::push_decimal(c.buffers, captures, out, n);
    r
}

// The first sequence gives the rank.
pub fn on_exit_heading_atx_sequence(
    c: Context,
    text: &[u8],
    e: Event,
    captures: &mut [u8],
    out: &mut [u8],
) -> Context
    ensures { Keeps (Sees text.now e) on_exit_heading_atx_sequence c captures.old out.old result captures.new out.new }
{
    if state_context::has_rank(c) {
        return c;
    }
    let line = state_context::line_ending_if_needed(c, captures, out);
    let ranked = keep_rank(line, text, e);
    let begun = state_context::push(ranked, captures, out, b"<h");
    let r = push_rank(begun, captures, out);
    state_context::push(r, captures, out, b">")
}

pub fn on_exit_heading_atx_text(
    c: Context,
    captures: &mut [u8],
    starts: &[usize],
    out: &mut [u8],
) -> Context
    ensures { Takes Any on_exit_heading_atx_text c captures.old starts.now out.old result captures.new out.new }
{
    let mut r = c;
    r.buffers = state_resume::resume(c.buffers, captures, starts, out, b"", b"");
    r
}

pub fn on_exit_heading_atx(c: Context, captures: &mut [u8], out: &mut [u8]) -> Context
    ensures { Keeps Any on_exit_heading_atx c captures.old out.old result captures.new out.new }
{
    let begun = state_context::push(c, captures, out, b"</h");
    let ranked = push_rank(begun, captures, out);
    let r = state_context::push(ranked, captures, out, b">");
    state_context::forget_rank(r)
}

// ---- code
