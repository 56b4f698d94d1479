// Handlers of paragraphs, quotes and code blocks, by their Rust names.
#![tactic(auto)]

ghost use Rattle.machine.specs.OnFlow.{on_enter_paragraph, on_exit_paragraph, on_enter_block_quote, on_exit_block_quote, on_exit_thematic_break, on_enter_code_indented, on_enter_raw_flow, on_exit_raw_flow_fence, on_exit_raw_flow_fence_info, on_exit_raw_flow, on_exit_raw_flow_chunk};
ghost use Rattle.std.specs.Prelude.{true};
ghost use Rattle.machine.specs.Set.{slurp};
ghost use Rattle.machine.specs.Test.{is_first_fence, is_fenced_once, is_in_container, is_behind_fence, has_seen_data, is_fence_missing};
ghost use Rattle.machine.specs.Command.{◌▸◌};
ghost use Rattle.machine.specs.Words.{when, unless, put, set, line_ending, line_ending_if_needed, chunk};
ghost use Rattle.state_context.specs.Rel.{Any, Keeps, Takes, FenceBefore, Sees};

use event::Event;
use state_context::Context;

pub fn on_enter_paragraph(c: Context, captures: &mut [u8], out: &mut [u8]) -> Context
    ensures { Keeps Any on_enter_paragraph c captures.old out.old result captures.new out.new }
{
    if state_context::is_tight(c) {
        return c;
    }
    let r = state_context::line_ending_if_needed(c, captures, out);
    state_context::push(r, captures, out, b"<p>")
}

pub fn on_exit_paragraph(c: Context, captures: &mut [u8], out: &mut [u8]) -> Context
    ensures { Keeps Any on_exit_paragraph c captures.old out.old result captures.new out.new }
{
    if state_context::is_tight(c) {
        return state_context::set_slurp(c, true);
    }
    state_context::push(c, captures, out, b"</p>")
}

pub fn on_enter_block_quote(c: Context, captures: &mut [u8], out: &mut [u8]) -> Context
    ensures { Keeps Any on_enter_block_quote c captures.old out.old result captures.new out.new }
{
    let tight = state_context::open_container(c, false);
    let r = state_context::line_ending_if_needed(tight, captures, out);
    state_context::push(r, captures, out, b"<blockquote>")
}

pub fn on_exit_block_quote(c: Context, captures: &mut [u8], out: &mut [u8]) -> Context
    ensures { Keeps Any on_exit_block_quote c captures.old out.old result captures.new out.new }
{
    let loose = state_context::close_container(c);
    let line = state_context::line_ending_if_needed(loose, captures, out);
    let r = state_context::set_slurp(line, false);
    state_context::push(r, captures, out, b"</blockquote>")
}

pub fn on_exit_thematic_break(c: Context, captures: &mut [u8], out: &mut [u8]) -> Context
    ensures { Keeps Any on_exit_thematic_break c captures.old out.old result captures.new out.new }
{
    let r = state_context::line_ending_if_needed(c, captures, out);
    state_context::push(r, captures, out, b"<hr />")
}

pub fn on_enter_code_indented(c: Context, captures: &mut [u8], out: &mut [u8]) -> Context
    ensures { Keeps Any on_enter_code_indented c captures.old out.old result captures.new out.new }
{
    let seen = state_context::set_seen(c, Some(false));
    let r = state_context::line_ending_if_needed(seen, captures, out);
    state_context::push(r, captures, out, b"<pre><code>")
}

// No > yet: the info comes first.
pub fn on_enter_raw_flow(c: Context, captures: &mut [u8], out: &mut [u8]) -> Context
    ensures { Keeps Any on_enter_raw_flow c captures.old out.old result captures.new out.new }
{
    let seen = state_context::set_seen(c, Some(false));
    let line = state_context::line_ending_if_needed(seen, captures, out);
    let r = state_context::push(line, captures, out, b"<pre><code");
    state_context::open_fences(r)
}

// Behind the first fence the tag ends, and the line with it.
fn end_opening_fence(c: Context, captures: &mut [u8], out: &mut [u8]) -> Context
    ensures { Keeps Any (when is_first_fence (put ">" ▸ set slurp true)) c captures.old out.old result captures.new out.new }
{
    if state_context::is_first_fence(c) {
        let r = state_context::push(c, captures, out, b">");
        return state_context::set_slurp(r, true);
    }
    c
}

pub fn on_exit_raw_flow_fence(c: Context, captures: &mut [u8], out: &mut [u8]) -> Context
    ensures { Keeps Any (on_exit_raw_flow_fence) c captures.old out.old result captures.new out.new }
{
    let r = end_opening_fence(c, captures, out);
    state_context::count_fence(r)
}

// In a container the line ending behind code that has no closing fence belongs to the code.
fn end_open_code(c: Context, fence_before: bool, captures: &mut [u8], out: &mut [u8]) -> Context
    ensures { Keeps (FenceBefore fence_before) (when is_fenced_once (when is_in_container (unless is_behind_fence line_ending))) c captures.old out.old result captures.new out.new }
{
    if !state_context::is_fenced_once(c) {
        return c;
    }
    if !state_context::is_in_container(c) {
        return c;
    }
    if fence_before {
        return c;
    }
    state_context::line_ending(c, captures, out)
}

fn end_seen_data(c: Context, captures: &mut [u8], out: &mut [u8]) -> Context
    ensures { Keeps Any (when has_seen_data line_ending_if_needed) c captures.old out.old result captures.new out.new }
{
    if state_context::has_seen_data(c) {
        return state_context::line_ending_if_needed(c, captures, out);
    }
    c
}

fn end_missing_fence(c: Context, captures: &mut [u8], out: &mut [u8]) -> Context
    ensures { Keeps Any (when is_fence_missing line_ending_if_needed) c captures.old out.old result captures.new out.new }
{
    if state_context::is_fence_missing(c) {
        return state_context::line_ending_if_needed(c, captures, out);
    }
    c
}

pub fn on_exit_raw_flow(
    c: Context,
    fence_before: bool,
    captures: &mut [u8],
    out: &mut [u8],
) -> Context
    ensures { Keeps (FenceBefore fence_before) (on_exit_raw_flow) c captures.old out.old result captures.new out.new }
{
    let open = end_open_code(c, fence_before, captures, out);
    let line = end_seen_data(open, captures, out);
    let unseen = state_context::set_seen(line, None);
    let tag = state_context::push(unseen, captures, out, b"</code></pre>");
    let fence = end_missing_fence(tag, captures, out);
    let r = state_context::end_fences(fence);
    state_context::set_slurp(r, false)
}

// ---- what was captured

pub fn on_exit_raw_flow_fence_info(
    c: Context,
    captures: &mut [u8],
    starts: &[usize],
    out: &mut [u8],
) -> Context
    ensures { Takes Any on_exit_raw_flow_fence_info c captures.old starts.now out.old result captures.new out.new }
{
    let mut r = c;
    r.buffers = state_resume::resume(
        c.buffers,
        captures,
        starts,
        out,
        b" class=\"language-",
        b"\"",
    );
    r
}

// The event's slice between its virtual spaces, encoded where the flag says so.
fn push_chunk(c: Context, text: &[u8], e: Event, captures: &mut [u8], out: &mut [u8]) -> Context
    ensures { Keeps (Sees text.now e) chunk c captures.old out.old result captures.new out.new }
{
    let Some(s) = text.get(e.from.0..e.to.0) else {
        return c;
    };
    let mut r = c;
    let escaping = state_context::escaping_in(c);
    let before = e.before;
    let after = e.after;
    r.buffers = write_pieces::push_padded(c.buffers, captures, out, before, s, after, escaping);
    r
}

pub fn on_exit_raw_flow_chunk(
    c: Context,
    text: &[u8],
    e: Event,
    captures: &mut [u8],
    out: &mut [u8],
) -> Context
    ensures { Keeps (Sees text.now e) on_exit_raw_flow_chunk c captures.old out.old result captures.new out.new }
{
    let r = state_context::set_seen(c, Some(true));
    push_chunk(r, text, e, captures, out)
}
