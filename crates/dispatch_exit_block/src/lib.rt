// An exit goes to its handler by its name, but for what stands in a line, where that leaves media, labels, the setext text and what is kept alone; elsewhere the state is left as it is.
#![tactic(auto)]

ghost use Rattle.std.specs.Prelude.{false, ◌<◌};
ghost use Rattle.event.specs.Event.{count_of};
ghost use Rattle.machine.specs.OnFlow.{on_exit_raw_flow};
ghost use Rattle.machine.specs.OnList.{on_exit_list_item};
ghost use Rattle.state_context.specs.Rel.{Any, Sees, Keeps};
ghost use Rattle.dispatch_turns.specs.Turns.{Among};
ghost use Rattle.dispatch_exit_block.specs.Exits.{ExitsBlock};
ghost use Rattle.dispatch_exit_block.specs.Private.{After, Here};

use event::{Event, EventIndex};
use state_context::Context;

fn exit_list_item(
    c: Context,
    events: &[u8],
    i: EventIndex,
    captures: &mut [u8],
    out: &mut [u8],
) -> Context
    requires { i.0 < count_of events.now }
    ensures { Keeps (After events.now i.0) on_exit_list_item c captures.old out.old result captures.new out.new }
{
    let behind = dispatch_look_back::look_back(events, i);
    on_list::on_exit_list_item(c, behind, captures, out)
}

fn exit_raw_flow(
    c: Context,
    events: &[u8],
    i: EventIndex,
    captures: &mut [u8],
    out: &mut [u8],
) -> Context
    requires { i.0 < count_of events.now }
    ensures { Keeps (After events.now i.0) on_exit_raw_flow c captures.old out.old result captures.new out.new }
{
    let fence = dispatch_look_back::fence_before(events, i);
    on_flow::on_exit_raw_flow(c, fence, captures, out)
}

// Paragraphs, headings, quotes and lists.
fn exit_block(
    c: Context,
    text: &[u8],
    e: Event,
    captures: &mut [u8],
    starts: &[usize],
    out: &mut [u8],
) -> Context
    ensures { Among false 12 22 (Sees text.now e) e c captures.old starts.now out.old result captures.new starts.now out.new }
{
    let name = e.name;
    match name {
        Event::PARAGRAPH => on_flow::on_exit_paragraph(c, captures, out),
        Event::HEADING_ATX => on_heading::on_exit_heading_atx(c, captures, out),
        Event::HEADING_ATX_SEQUENCE => {
            on_heading::on_exit_heading_atx_sequence(c, text, e, captures, out)
        }
        Event::HEADING_ATX_TEXT => on_heading::on_exit_heading_atx_text(c, captures, starts, out),
        Event::THEMATIC_BREAK => on_flow::on_exit_thematic_break(c, captures, out),
        Event::BLOCK_QUOTE => on_flow::on_exit_block_quote(c, captures, out),
        Event::LIST_ORDERED => on_list::on_exit_list(c, true, captures, out),
        Event::LIST_UNORDERED => on_list::on_exit_list(c, false, captures, out),
        _ => c,
    }
}

// Items of lists and code blocks.
fn exit_content(
    c: Context,
    text: &[u8],
    events: &[u8],
    i: EventIndex,
    e: Event,
    captures: &mut [u8],
    starts: &[usize],
    out: &mut [u8],
) -> Context
    requires { i.0 < count_of events.now }
    ensures { Among false 23 32 (Here text.now events.now i.0 e) e c captures.old starts.now out.old result captures.new starts.now out.new }
{
    let name = e.name;
    match name {
        Event::LIST_ITEM => exit_list_item(c, events, i, captures, out),
        Event::LIST_ITEM_VALUE => on_list::on_exit_list_item_value(c, text, e, captures, out),
        Event::CODE_INDENTED => exit_raw_flow(c, events, i, captures, out),
        Event::CODE_FENCED => exit_raw_flow(c, events, i, captures, out),
        Event::CODE_FENCED_FENCE => on_flow::on_exit_raw_flow_fence(c, captures, out),
        Event::CODE_FENCED_FENCE_INFO => {
            on_flow::on_exit_raw_flow_fence_info(c, captures, starts, out)
        }
        Event::CODE_FENCED_FENCE_META => on_text::on_exit_drop(c, starts),
        Event::CODE_FLOW_CHUNK => on_flow::on_exit_raw_flow_chunk(c, text, e, captures, out),
        _ => c,
    }
}

// Resources, tables and footnotes.
fn exit_table(
    c: Context,
    e: Event,
    captures: &mut [u8],
    starts: &mut [usize],
    out: &mut [u8],
) -> Context
    ensures { Among false 45 255 Any e c captures.old starts.old out.old result captures.new starts.new out.new }
{
    let name = e.name;
    match name {
        Event::RESOURCE => on_text::on_exit_drop(c, starts),
        Event::GFM_TABLE => on_table::on_exit_gfm_table(c, captures, out),
        Event::GFM_TABLE_HEAD => on_table::on_exit_gfm_table_head(c, captures, out),
        Event::GFM_TABLE_BODY => on_table::on_exit_gfm_table_body(c, captures, out),
        Event::GFM_TABLE_ROW => on_cell::on_exit_gfm_table_row(c, captures, out),
        Event::GFM_TABLE_CELL => on_cell::on_exit_gfm_table_cell(c, captures, starts, out),
        Event::GFM_FOOTNOTE_DEFINITION_PREFIX =>
            on_footnote::on_exit_gfm_footnote_definition_prefix(c, starts),
        _ => c,
    }
}

// The exit at an index, of a name that is none of what stands in a line.
pub fn on_exit(
    c: Context,
    text: &[u8],
    events: &[u8],
    i: EventIndex,
    e: Event,
    captures: &mut [u8],
    starts: &mut [usize],
    out: &mut [u8],
) -> Context
    requires { i.0 < count_of events.now }
    ensures { ExitsBlock text.now events.now i.0 e c captures.old starts.old out.old result captures.new starts.new out.new }
{
    if e.name < Event::LIST_ITEM {
        return exit_block(c, text, e, captures, starts, out);
    }
    if e.name < Event::CODE_TEXT {
        return exit_content(c, text, events, i, e, captures, starts, out);
    }
    exit_table(c, e, captures, starts, out)
}
