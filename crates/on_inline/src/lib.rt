// Handlers of emphasis, strong, breaks, code text and autolinks, by their Rust names.
#![tactic(auto)]

ghost use Rattle.machine.specs.Set.{alt};
ghost use Rattle.machine.specs.Test.{is};
ghost use Rattle.machine.specs.Command.{◌▸◌};
ghost use Rattle.machine.specs.Words.{unless, put, slice, tag, url, resume_code};
ghost use Rattle.machine.specs.OnInline.{on_exit_raw_text, on_exit_autolink_email, on_exit_autolink_protocol, on_enter_emphasis, on_exit_emphasis, on_enter_strong, on_exit_strong, on_exit_break, on_enter_raw_text};
ghost use Rattle.state_context.specs.Rel.{Any, Sees, Keeps, Takes, Opens};
ghost use Rattle.on_inline.specs.View.{SeesWith};

use event::Event;
use machine::Options;
use state_context::Context;

pub fn on_enter_emphasis(c: Context, captures: &mut [u8], out: &mut [u8]) -> Context
    ensures { Keeps Any on_enter_emphasis c captures.old out.old result captures.new out.new }
{
    state_context::push_tag(c, captures, out, b"<em>")
}

pub fn on_exit_emphasis(c: Context, captures: &mut [u8], out: &mut [u8]) -> Context
    ensures { Keeps Any on_exit_emphasis c captures.old out.old result captures.new out.new }
{
    state_context::push_tag(c, captures, out, b"</em>")
}

pub fn on_enter_strong(c: Context, captures: &mut [u8], out: &mut [u8]) -> Context
    ensures { Keeps Any on_enter_strong c captures.old out.old result captures.new out.new }
{
    state_context::push_tag(c, captures, out, b"<strong>")
}

pub fn on_exit_strong(c: Context, captures: &mut [u8], out: &mut [u8]) -> Context
    ensures { Keeps Any on_exit_strong c captures.old out.old result captures.new out.new }
{
    state_context::push_tag(c, captures, out, b"</strong>")
}

pub fn on_exit_break(c: Context, captures: &mut [u8], out: &mut [u8]) -> Context
    ensures { Keeps Any on_exit_break c captures.old out.old result captures.new out.new }
{
    state_context::push_tag(c, captures, out, b"<br />")
}

pub fn on_enter_raw_text(
    c: Context,
    captures: &mut [u8],
    starts: &mut [usize],
    out: &mut [u8],
) -> Context
    ensures { Opens Any on_enter_raw_text c captures.old starts.old out.old result captures.new starts.new out.new }
{
    let raw = state_context::set_raw(c, true);
    let r = state_context::push_tag(raw, captures, out, b"<code>");
    state_context::open(r, starts)
}

// ---- character references

// ---- code text

// What was captured, as code.
fn resume_code(c: Context, captures: &mut [u8], starts: &[usize], out: &mut [u8]) -> Context
    ensures { Takes Any resume_code c captures.old starts.now out.old result captures.new out.new }
{
    let mut r = c;
    let inside = c.table.inside;
    r.buffers = state_resume::resume_code(c.buffers, captures, starts, out, inside);
    r
}

pub fn on_exit_raw_text(
    c: Context,
    captures: &mut [u8],
    starts: &[usize],
    out: &mut [u8],
) -> Context
    ensures { Takes Any on_exit_raw_text c captures.old starts.now out.old result captures.new out.new }
{
    let code = resume_code(c, captures, starts, out);
    let r = state_context::set_raw(code, false);
    state_context::push_tag(r, captures, out, b"</code>")
}

// ---- autolinks

// The event's slice as a URL, made safe as the options say.
fn push_url(
    c: Context,
    text: &[u8],
    e: Event,
    options: Options,
    captures: &mut [u8],
    out: &mut [u8],
) -> Context
    ensures { Keeps (SeesWith text.now e options) (url "") c captures.old out.old result captures.new out.new }
{
    let Some(s) = text.get(e.from.0..e.to.0) else {
        return c;
    };
    let mut r = c;
    r.buffers = write_pieces::push_url(c.buffers, captures, out, s, options, false);
    r
}

// The event's slice as an address, which is safe whatever may be dangerous.
fn push_mail(
    c: Context,
    text: &[u8],
    e: Event,
    options: Options,
    captures: &mut [u8],
    out: &mut [u8],
) -> Context
    ensures { Keeps (SeesWith text.now e options) (url "mailto:") c captures.old out.old result captures.new out.new }
{
    let Some(s) = text.get(e.from.0..e.to.0) else {
        return c;
    };
    let mut r = c;
    r.buffers = write_pieces::push_mail(c.buffers, captures, out, s, options.escape_apostrophes);
    r
}

// In an image's text there is no tag.
fn begin_protocol(
    c: Context,
    text: &[u8],
    e: Event,
    options: Options,
    captures: &mut [u8],
    out: &mut [u8],
) -> Context
    ensures { Keeps (SeesWith text.now e options) (unless (is alt) (put "<a href=\"" ▸ url "" ▸ put "\">")) c captures.old out.old result captures.new out.new }
{
    if state_context::is_alt(c) {
        return c;
    }
    let begun = state_context::push(c, captures, out, b"<a href=\"");
    let r = push_url(begun, text, e, options, captures, out);
    state_context::push(r, captures, out, b"\">")
}

fn begin_email(
    c: Context,
    text: &[u8],
    e: Event,
    options: Options,
    captures: &mut [u8],
    out: &mut [u8],
) -> Context
    ensures { Keeps (SeesWith text.now e options) (unless (is alt) (put "<a href=\"" ▸ url "mailto:" ▸ put "\">")) c captures.old out.old result captures.new out.new }
{
    if state_context::is_alt(c) {
        return c;
    }
    let begun = state_context::push(c, captures, out, b"<a href=\"");
    let r = push_mail(begun, text, e, options, captures, out);
    state_context::push(r, captures, out, b"\">")
}

// The text of either is its slice.
fn end_autolink(c: Context, text: &[u8], e: Event, captures: &mut [u8], out: &mut [u8]) -> Context
    ensures { Keeps (Sees text.now e) (slice ▸ tag "</a>") c captures.old out.old result captures.new out.new }
{
    let r = state_context::push_slice(c, text, e, captures, out);
    state_context::push_tag(r, captures, out, b"</a>")
}

pub fn on_exit_autolink_email(
    c: Context,
    text: &[u8],
    e: Event,
    options: Options,
    captures: &mut [u8],
    out: &mut [u8],
) -> Context
    ensures { Keeps (SeesWith text.now e options) on_exit_autolink_email c captures.old out.old result captures.new out.new }
{
    let r = begin_email(c, text, e, options, captures, out);
    end_autolink(r, text, e, captures, out)
}

pub fn on_exit_autolink_protocol(
    c: Context,
    text: &[u8],
    e: Event,
    options: Options,
    captures: &mut [u8],
    out: &mut [u8],
) -> Context
    ensures { Keeps (SeesWith text.now e options) on_exit_autolink_protocol c captures.old out.old result captures.new out.new }
{
    let r = begin_protocol(c, text, e, options, captures, out);
    end_autolink(r, text, e, captures, out)
}
