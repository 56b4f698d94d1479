// Handlers of the rows and cells of a table, by their Rust names.
#![tactic(auto)]

ghost use Rattle.machine.specs.OnCell.{on_enter_gfm_table_cell, on_exit_gfm_table_cell, on_enter_gfm_table_row, on_exit_gfm_table_row};
ghost use Rattle.machine.specs.Command.{◌▸◌, missing_cells};
ghost use Rattle.machine.specs.Words.{put};
ghost use Rattle.state_context.specs.Rel.{Any, Keeps, Opens, Takes};
ghost use Rattle.on_cell.specs.Private.{cell_name, opening_cell, closing_cell, phantom_cell, AddsCell};

use state_context::Context;

// ---- cells

fn push_cell_name(c: Context, captures: &mut [u8], out: &mut [u8]) -> Context
    ensures { Keeps Any cell_name c captures.old out.old result captures.new out.new }
{
    if state_context::is_head(c) {
        return state_context::push(c, captures, out, b"<th");
    }
    state_context::push(c, captures, out, b"<td")
}

fn open_cell(c: Context, captures: &mut [u8], out: &mut [u8]) -> Context
    ensures { Keeps Any opening_cell c captures.old out.old result captures.new out.new }
{
    let line = state_context::line_ending_if_needed(c, captures, out);
    let name = push_cell_name(line, captures, out);
    let r = on_table::push_alignment(name, captures, out);
    state_context::push(r, captures, out, b">")
}

fn close_cell(c: Context, captures: &mut [u8], out: &mut [u8]) -> Context
    ensures { Keeps Any closing_cell c captures.old out.old result captures.new out.new }
{
    if state_context::is_head(c) {
        return state_context::push(c, captures, out, b"</th>");
    }
    state_context::push(c, captures, out, b"</td>")
}

// A cell past the columns is captured, and dropped.
pub fn on_enter_gfm_table_cell(
    c: Context,
    captures: &mut [u8],
    starts: &mut [usize],
    out: &mut [u8],
) -> Context
    ensures { Opens Any on_enter_gfm_table_cell c captures.old starts.old out.old result captures.new starts.new out.new }
{
    if on_table::is_past_columns(c) {
        return state_context::open(c, starts);
    }
    open_cell(c, captures, out)
}

pub fn on_exit_gfm_table_cell(
    c: Context,
    captures: &mut [u8],
    starts: &[usize],
    out: &mut [u8],
) -> Context
    ensures { Takes Any on_exit_gfm_table_cell c captures.old starts.now out.old result captures.new out.new }
{
    if on_table::is_past_columns(c) {
        let r = state_context::drop(c, starts);
        return on_table::next_column(r);
    }
    let r = close_cell(c, captures, out);
    on_table::next_column(r)
}

// ---- rows

pub fn on_enter_gfm_table_row(c: Context, captures: &mut [u8], out: &mut [u8]) -> Context
    ensures { Keeps Any on_enter_gfm_table_row c captures.old out.old result captures.new out.new }
{
    let r = state_context::line_ending_if_needed(c, captures, out);
    state_context::push(r, captures, out, b"<tr>")
}

// The end of an empty cell, as one text: so `open_cell` and `close_cell` have one caller each, and the compiler puts them into the pass.
fn end_empty_cell(c: Context, captures: &mut [u8], out: &mut [u8]) -> Context
    ensures { Keeps Any (put ">" ▸ closing_cell) c captures.old out.old result captures.new out.new }
{
    if state_context::is_head(c) {
        return state_context::push(c, captures, out, b"></th>");
    }
    state_context::push(c, captures, out, b"></td>")
}

// A cell that the row lacks. Its column is one of the table's, so that none is captured.
fn push_phantom_cell(c: Context, captures: &mut [u8], out: &mut [u8]) -> Context
    ensures { AddsCell c captures.old out.old result captures.new out.new }
{
    let line = state_context::line_ending_if_needed(c, captures, out);
    let name = push_cell_name(line, captures, out);
    let aligned = on_table::push_alignment(name, captures, out);
    let r = end_empty_cell(aligned, captures, out);
    on_table::next_column(r)
}

fn push_missing_cells(c: Context, captures: &mut [u8], out: &mut [u8]) -> Context
    ensures { Keeps Any (missing_cells phantom_cell) c captures.old out.old result captures.new out.new }
{
    let mut r = c;
    let missing = on_table::missing(c);
    for _ in 0..missing {
        r = push_phantom_cell(r, captures, out);
    }
    r
}

pub fn on_exit_gfm_table_row(c: Context, captures: &mut [u8], out: &mut [u8]) -> Context
    ensures { Keeps Any on_exit_gfm_table_row c captures.old out.old result captures.new out.new }
{
    let whole = push_missing_cells(c, captures, out);
    let first = on_table::first_column(whole);
    let r = state_context::line_ending_if_needed(first, captures, out);
    state_context::push(r, captures, out, b"</tr>")
}
