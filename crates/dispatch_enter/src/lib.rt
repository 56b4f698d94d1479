// An enter goes to its handler by its name, where that leaves media, labels, the setext text and what is kept alone; elsewhere the state is left as it is.
#![tactic(auto)]

ghost use Rattle.std.specs.Prelude.{true};
ghost use Rattle.machine.specs.OnList.{on_enter_list};
ghost use Rattle.state_context.specs.Rel.{Keeps};
ghost use Rattle.on_table.specs.Table.{IsEvent};
ghost use Rattle.dispatch_turns.specs.Turns.{Among};
ghost use Rattle.dispatch_enter.specs.Enters.{Enters};
ghost use Rattle.dispatch_enter.specs.Private.{Of};

use event::Event;
use state_context::Context;

fn enter_list(c: Context, e: Event, captures: &mut [u8], out: &mut [u8]) -> Context
    ensures { Keeps (IsEvent e) on_enter_list c captures.old out.old result captures.new out.new }
{
    let ordered = e.name == Event::LIST_ORDERED;
    let loose = e.is_loose();
    on_list::on_enter_list(c, ordered, loose, captures, out)
}

// Paragraphs, headings, quotes, lists and code blocks.
fn enter_block(
    c: Context,
    e: Event,
    captures: &mut [u8],
    starts: &mut [usize],
    out: &mut [u8],
) -> Context
    ensures { Among true 0 32 (IsEvent e) e c captures.old starts.old out.old result captures.new starts.new out.new }
{
    let name = e.name;
    match name {
        Event::PARAGRAPH => on_flow::on_enter_paragraph(c, captures, out),
        Event::HEADING_ATX_TEXT => on_text::on_enter_buffer(c, starts),
        Event::HEADING_SETEXT_TEXT => on_text::on_enter_buffer(c, starts),
        Event::BLOCK_QUOTE => on_flow::on_enter_block_quote(c, captures, out),
        Event::LIST_ORDERED => enter_list(c, e, captures, out),
        Event::LIST_UNORDERED => enter_list(c, e, captures, out),
        Event::LIST_ITEM_MARKER => on_list::on_enter_list_item_marker(c, captures, out),
        Event::CODE_INDENTED => on_flow::on_enter_code_indented(c, captures, out),
        Event::CODE_FENCED => on_flow::on_enter_raw_flow(c, captures, out),
        Event::CODE_FENCED_FENCE_INFO => on_text::on_enter_buffer(c, starts),
        Event::CODE_FENCED_FENCE_META => on_text::on_enter_buffer(c, starts),
        _ => c,
    }
}

// What stands in a line, and what is captured of links, images and definitions.
fn enter_inline(
    c: Context,
    e: Event,
    allowed: bool,
    captures: &mut [u8],
    starts: &mut [usize],
    out: &mut [u8],
) -> Context
    ensures { Among true 33 56 (Of e allowed) e c captures.old starts.old out.old result captures.new starts.new out.new }
{
    let name = e.name;
    match name {
        Event::CODE_TEXT => on_inline::on_enter_raw_text(c, captures, starts, out),
        Event::HTML_FLOW => on_text::on_enter_html_flow(c, allowed, captures, out),
        Event::HTML_TEXT => on_text::on_enter_html_text(c, allowed),
        Event::EMPHASIS => on_inline::on_enter_emphasis(c, captures, out),
        Event::STRONG => on_inline::on_enter_strong(c, captures, out),
        Event::LABEL => on_text::on_enter_buffer(c, starts),
        Event::RESOURCE_DESTINATION_STRING => on_link::on_enter_destination_string(c, starts),
        Event::RESOURCE_TITLE_STRING => on_text::on_enter_buffer(c, starts),
        Event::REFERENCE_STRING => on_text::on_enter_buffer(c, starts),
        Event::DEFINITION_LABEL_STRING => on_text::on_enter_buffer(c, starts),
        Event::DEFINITION_DESTINATION_STRING => on_link::on_enter_destination_string(c, starts),
        Event::DEFINITION_TITLE_STRING => on_text::on_enter_buffer(c, starts),
        _ => c,
    }
}

// Tables and footnotes.
fn enter_gfm(
    c: Context,
    e: Event,
    captures: &mut [u8],
    starts: &mut [usize],
    out: &mut [u8],
) -> Context
    ensures { Among true 57 255 (IsEvent e) e c captures.old starts.old out.old result captures.new starts.new out.new }
{
    let name = e.name;
    match name {
        Event::GFM_TABLE => on_table::on_enter_gfm_table(c, e, captures, out),
        Event::GFM_TABLE_HEAD => on_table::on_enter_gfm_table_head(c, captures, out),
        Event::GFM_TABLE_BODY => on_table::on_enter_gfm_table_body(c, captures, out),
        Event::GFM_TABLE_ROW => on_cell::on_enter_gfm_table_row(c, captures, out),
        Event::GFM_TABLE_CELL => on_cell::on_enter_gfm_table_cell(c, captures, starts, out),
        Event::GFM_FOOTNOTE_DEFINITION => on_footnote::on_enter_gfm_footnote_definition(c),
        Event::GFM_FOOTNOTE_DEFINITION_PREFIX => on_text::on_enter_buffer(c, starts),
        _ => c,
    }
}

pub fn on_enter(
    c: Context,
    e: Event,
    allowed: bool,
    captures: &mut [u8],
    starts: &mut [usize],
    out: &mut [u8],
) -> Context
    ensures { Enters e allowed c captures.old starts.old out.old result captures.new starts.new out.new }
{
    if e.name < Event::CODE_TEXT {
        return enter_block(c, e, captures, starts, out);
    }
    if e.name < Event::GFM_TABLE {
        return enter_inline(c, e, allowed, captures, starts, out);
    }
    enter_gfm(c, e, captures, starts, out)
}
