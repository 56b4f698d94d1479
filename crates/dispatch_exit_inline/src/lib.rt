// An exit of what stands in a line goes to its handler by its name; where it has none the state is left as it is.
#![tactic(auto)]

ghost use Rattle.std.specs.Prelude.{false, ◌≡◌, ◌<◌};
ghost use Rattle.event.specs.Event.{count_of};
ghost use Rattle.machine.specs.OnText.{on_exit_line_ending, on_exit_blank_line_ending};
ghost use Rattle.state_context.specs.Rel.{Keeps};
ghost use Rattle.on_inline.specs.View.{SeesWith};
ghost use Rattle.dispatch_turns.specs.Turns.{Among};
ghost use Rattle.dispatch_exit_inline.specs.Exits.{is_text, ExitsInline};
ghost use Rattle.dispatch_exit_inline.specs.Group.{At, Here};

use event::{Event, EventIndex};
use machine::Options;
use state_context::Context;

// Whether a name is of this crate: data, references and line endings, or from code text to autolinks.
pub fn is_text(name: u8) -> bool
    ensures { result ≡ is_text name }
{
    let inline = (Event::CODE_FLOW_CHUNK < name) & (name < Event::LINK);
    (name < Event::PARAGRAPH) | inline
}

fn exit_line_ending(
    c: Context,
    text: &[u8],
    events: &[u8],
    i: EventIndex,
    e: Event,
    captures: &mut [u8],
    out: &mut [u8],
) -> Context
    requires { i.0 < count_of events.now }
    ensures { Keeps (Here text.now events.now i.0 e) on_exit_line_ending c captures.old out.old result captures.new out.new }
{
    let behind = dispatch_look_back::behind_definition(events, i);
    on_text::on_exit_line_ending(c, text, e, behind, captures, out)
}

fn exit_blank_line_ending(
    c: Context,
    events: &[u8],
    i: EventIndex,
    captures: &mut [u8],
    out: &mut [u8],
) -> Context
    requires { i.0 < count_of events.now }
    ensures { Keeps (At events.now i.0) on_exit_blank_line_ending c captures.old out.old result captures.new out.new }
{
    let last = i.0 + 1 == event::count(events);
    on_text::on_exit_blank_line_ending(c, last, captures, out)
}

// Data, references and line endings.
fn exit_data(
    c: Context,
    text: &[u8],
    events: &[u8],
    i: EventIndex,
    e: Event,
    captures: &mut [u8],
    starts: &[usize],
    out: &mut [u8],
) -> Context
    requires { i.0 < count_of events.now }
    ensures { Among false 0 11 (Here text.now events.now i.0 e) e c captures.old starts.now out.old result captures.new starts.now out.new }
{
    let name = e.name;
    match name {
        Event::LINE_ENDING => exit_line_ending(c, text, events, i, e, captures, out),
        Event::BLANK_LINE_ENDING => exit_blank_line_ending(c, events, i, captures, out),
        Event::DATA => on_text::on_exit_data(c, text, e, captures, out),
        Event::CHARACTER_ESCAPE_VALUE => on_text::on_exit_data(c, text, e, captures, out),
        Event::CHARACTER_REFERENCE_MARKER => on_text::on_exit_character_reference_marker(c),
        Event::CHARACTER_REFERENCE_MARKER_NUMERIC => {
            on_text::on_exit_character_reference_marker_numeric(c)
        }
        Event::CHARACTER_REFERENCE_MARKER_HEXADECIMAL => {
            on_text::on_exit_character_reference_marker_hexadecimal(c)
        }
        Event::CHARACTER_REFERENCE_VALUE => {
            on_text::on_exit_character_reference_value(c, text, e, captures, out)
        }
        _ => c,
    }
}

// Code text, HTML, emphasis, breaks and autolinks.
fn exit_inline(
    c: Context,
    text: &[u8],
    e: Event,
    options: Options,
    captures: &mut [u8],
    starts: &[usize],
    out: &mut [u8],
) -> Context
    ensures { Among false 33 44 (SeesWith text.now e options) e c captures.old starts.now out.old result captures.new starts.now out.new }
{
    let name = e.name;
    match name {
        Event::CODE_TEXT => on_inline::on_exit_raw_text(c, captures, starts, out),
        Event::CODE_TEXT_DATA => on_text::on_exit_data(c, text, e, captures, out),
        Event::HTML_FLOW => on_text::on_exit_html(c),
        Event::HTML_FLOW_DATA => on_text::on_exit_html_data(c, text, e, captures, out),
        Event::HTML_TEXT => on_text::on_exit_html(c),
        Event::HTML_TEXT_DATA => on_text::on_exit_html_data(c, text, e, captures, out),
        Event::EMPHASIS => on_inline::on_exit_emphasis(c, captures, out),
        Event::STRONG => on_inline::on_exit_strong(c, captures, out),
        Event::HARD_BREAK_ESCAPE => on_inline::on_exit_break(c, captures, out),
        Event::HARD_BREAK_TRAILING => on_inline::on_exit_break(c, captures, out),
        Event::AUTOLINK_EMAIL => {
            on_inline::on_exit_autolink_email(c, text, e, options, captures, out)
        }
        Event::AUTOLINK_PROTOCOL => {
            on_inline::on_exit_autolink_protocol(c, text, e, options, captures, out)
        }
        _ => c,
    }
}

// The exit at an index, of a name of this crate.
pub fn on_exit(
    c: Context,
    text: &[u8],
    events: &[u8],
    i: EventIndex,
    e: Event,
    options: Options,
    captures: &mut [u8],
    starts: &[usize],
    out: &mut [u8],
) -> Context
    requires { i.0 < count_of events.now }
    ensures { ExitsInline text.now events.now options i.0 e c captures.old starts.now out.old result captures.new starts.now out.new }
{
    if e.name < Event::PARAGRAPH {
        return exit_data(c, text, events, i, e, captures, starts, out);
    }
    exit_inline(c, text, e, options, captures, starts, out)
}
