// Handlers of lists, by their Rust names.
#![tactic(auto)]

ghost use Rattle.machine.specs.Test.{is_first_marker, is_tight_paragraph, is_empty_item};
ghost use Rattle.machine.specs.Words.{when, unless, put, start, line_ending_if_needed};
ghost use Rattle.machine.specs.OnList.{on_enter_list, on_exit_list, on_enter_list_item_marker, on_exit_list_item_value, on_exit_list_item};
ghost use Rattle.state_context.specs.Rel.{Any, Sees, Keeps, Tells};
ghost use Rattle.on_list.specs.Lists.{IsOrdered, OpensList, LooksBack, PushesByOrder};

use event::Event;
use state_context::Context;

// ---- lists

// One text for an ordered list, another for any other.
fn push_by_order(
    c: Context,
    ordered: bool,
    captures: &mut [u8],
    out: &mut [u8],
    yes: &[u8],
    no: &[u8],
) -> Context
    ensures { PushesByOrder ordered yes.now no.now c captures.old out.old result captures.new out.new }
{
    if ordered {
        return state_context::push(c, captures, out, yes);
    }
    state_context::push(c, captures, out, no)
}

// No > yet: the first item's value comes first.
pub fn on_enter_list(
    c: Context,
    ordered: bool,
    loose: bool,
    captures: &mut [u8],
    out: &mut [u8],
) -> Context
    ensures { Keeps (OpensList ordered loose) on_enter_list c captures.old out.old result captures.new out.new }
{
    let tight = state_context::open_container(c, !loose);
    let line = state_context::line_ending_if_needed(tight, captures, out);
    let r = push_by_order(line, ordered, captures, out, b"<ol", b"<ul");
    state_context::set_first(r, true)
}

pub fn on_exit_list(c: Context, ordered: bool, captures: &mut [u8], out: &mut [u8]) -> Context
    ensures { Keeps (IsOrdered ordered) on_exit_list c captures.old out.old result captures.new out.new }
{
    let loose = state_context::close_container(c);
    let r = state_context::line_ending(loose, captures, out);
    push_by_order(r, ordered, captures, out, b"</ol>", b"</ul>")
}

// ---- items

fn end_tag(c: Context, captures: &mut [u8], out: &mut [u8]) -> Context
    ensures { Keeps Any (when is_first_marker (put ">")) c captures.old out.old result captures.new out.new }
{
    if state_context::is_first_marker(c) {
        return state_context::push(c, captures, out, b">");
    }
    c
}

pub fn on_enter_list_item_marker(c: Context, captures: &mut [u8], out: &mut [u8]) -> Context
    ensures { Keeps Any on_enter_list_item_marker c captures.old out.old result captures.new out.new }
{
    let list = end_tag(c, captures, out);
    let line = state_context::line_ending_if_needed(list, captures, out);
    let r = state_context::push(line, captures, out, b"<li>");
    state_context::set_first(r, false)
}

// The list's start, by the event's slice.
fn push_start(c: Context, text: &[u8], e: Event, captures: &mut [u8], out: &mut [u8]) -> Context
    ensures { Keeps (Sees text.now e) start c captures.old out.old result captures.new out.new }
{
    let Some(s) = text.get(e.from.0..e.to.0) else {
        return c;
    };
    let mut r = c;
    r.buffers = write_pieces::push_start(c.buffers, captures, out, s);
    r
}

pub fn on_exit_list_item_value(
    c: Context,
    text: &[u8],
    e: Event,
    captures: &mut [u8],
    out: &mut [u8],
) -> Context
    ensures { Keeps (Sees text.now e) on_exit_list_item_value c captures.old out.old result captures.new out.new }
{
    if state_context::is_first_marker(c) {
        return push_start(c, text, e, captures, out);
    }
    c
}

// ---- the end of an item: `behind` is the name of what the look back finds

fn is_tight_paragraph(c: Context, behind: u8) -> bool
    ensures { Tells (LooksBack behind) is_tight_paragraph c result }
{
    state_context::is_tight(c) & (behind == Event::PARAGRAPH)
}

fn end_line(c: Context, behind: u8, captures: &mut [u8], out: &mut [u8]) -> Context
    ensures { Keeps (LooksBack behind) (unless is_tight_paragraph (unless is_empty_item line_ending_if_needed)) c captures.old out.old result captures.new out.new }
{
    if is_tight_paragraph(c, behind) {
        return c;
    }
    if behind == Event::LIST_ITEM_PREFIX {
        return c;
    }
    state_context::line_ending_if_needed(c, captures, out)
}

pub fn on_exit_list_item(c: Context, behind: u8, captures: &mut [u8], out: &mut [u8]) -> Context
    ensures { Keeps (LooksBack behind) on_exit_list_item c captures.old out.old result captures.new out.new }
{
    let line = state_context::set_slurp(c, false);
    let r = end_line(line, behind, captures, out);
    state_context::push(r, captures, out, b"</li>")
}
