// Handlers of data, references, line endings, HTML and captures, by their Rust names.
#![tactic(auto)]

ghost use Rattle.machine.specs.OnText.{on_exit_html, on_enter_html_text, on_enter_html_flow, on_exit_html_data, on_exit_data, on_exit_character_reference_marker, on_exit_character_reference_marker_numeric, on_exit_character_reference_marker_hexadecimal, on_exit_line_ending, on_exit_blank_line_ending, on_enter_buffer, on_exit_drop, on_exit_character_reference_value};
ghost use Rattle.state_context.specs.Rel.{Sees, SeesEnding, HtmlAllowed, IsLast, Keeps, Begins, Ends, Sets, SetsFor};
ghost use Rattle.machine.specs.Test.{is};

use character_reference::Marker;
use event::Event;
use state_context::Context;

pub fn on_exit_html(c: Context) -> Context
    ensures { Sets on_exit_html c result }
{
    state_context::set_encode(c, true)
}

// ---- html

pub fn on_enter_html_text(c: Context, allowed: bool) -> Context
    ensures { SetsFor (HtmlAllowed allowed) on_enter_html_text c result }
{
    if allowed {
        return state_context::set_encode(c, false);
    }
    c
}

pub fn on_enter_html_flow(c: Context, allowed: bool, captures: &mut [u8], out: &mut [u8]) -> Context
    ensures { Keeps (HtmlAllowed allowed) on_enter_html_flow c captures.old out.old result captures.new out.new }
{
    let r = state_context::line_ending_if_needed(c, captures, out);
    on_enter_html_text(r, allowed)
}

pub fn on_exit_html_data(
    c: Context,
    text: &[u8],
    e: Event,
    captures: &mut [u8],
    out: &mut [u8],
) -> Context
    ensures { Keeps (Sees text.now e) on_exit_html_data c captures.old out.old result captures.new out.new }
{
    state_context::push_slice(c, text, e, captures, out)
}

// ---- data

pub fn on_exit_data(
    c: Context,
    text: &[u8],
    e: Event,
    captures: &mut [u8],
    out: &mut [u8],
) -> Context
    ensures { Keeps (Sees text.now e) on_exit_data c captures.old out.old result captures.new out.new }
{
    state_context::push_slice(c, text, e, captures, out)
}

pub fn on_exit_character_reference_marker(c: Context) -> Context
    ensures { Sets on_exit_character_reference_marker c result }
{
    state_context::set_marker(c, Marker::Named)
}

pub fn on_exit_character_reference_marker_numeric(c: Context) -> Context
    ensures { Sets on_exit_character_reference_marker_numeric c result }
{
    state_context::set_marker(c, Marker::Decimal)
}

pub fn on_exit_character_reference_marker_hexadecimal(c: Context) -> Context
    ensures { Sets on_exit_character_reference_marker_hexadecimal c result }
{
    state_context::set_marker(c, Marker::Hexadecimal)
}

// By the marker that waits, which is taken.
pub fn on_exit_character_reference_value(
    c: Context,
    text: &[u8],
    e: Event,
    captures: &mut [u8],
    out: &mut [u8],
) -> Context
    ensures { Keeps (Sees text.now e) on_exit_character_reference_value c captures.old out.old result captures.new out.new }
{
    let Some(s) = text.get(e.from.0..e.to.0) else {
        return c;
    };
    let Some(m) = state_context::waiting_marker(c) else {
        return c;
    };
    let names = state_context::names_in(c);
    let mut r = state_context::forget_marker(c);
    let escaping = state_context::escaping_in(c);
    r.buffers = write_pieces::push_reference(r.buffers, captures, out, names, m, s, escaping);
    r
}

// ---- line endings

// One behind a definition is swallowed, as is one that a handler wants swallowed.
pub fn on_exit_line_ending(
    c: Context,
    text: &[u8],
    e: Event,
    behind: bool,
    captures: &mut [u8],
    out: &mut [u8],
) -> Context
    ensures { Keeps (SeesEnding text.now e behind) on_exit_line_ending c captures.old out.old result captures.new out.new }
{
    if state_context::is_raw(c) {
        return state_context::push(c, captures, out, b" ");
    }
    if state_context::is_slurping(c) {
        return state_context::set_slurp(c, false);
    }
    if behind {
        return state_context::set_slurp(c, false);
    }
    state_context::push_slice(c, text, e, captures, out)
}

pub fn on_exit_blank_line_ending(
    c: Context,
    last: bool,
    captures: &mut [u8],
    out: &mut [u8],
) -> Context
    ensures { Keeps (IsLast last) on_exit_blank_line_ending c captures.old out.old result captures.new out.new }
{
    let r = state_context::set_slurp(c, false);
    if last {
        return state_context::line_ending_if_needed(r, captures, out);
    }
    r
}

// ---- captures

pub fn on_enter_buffer(c: Context, starts: &mut [usize]) -> Context
    ensures { Begins on_enter_buffer c starts.old result starts.new }
{
    state_context::open(c, starts)
}

pub fn on_exit_drop(c: Context, starts: &[usize]) -> Context
    ensures { Ends on_exit_drop c starts.now result }
{
    state_context::drop(c, starts)
}

// ---- code text
