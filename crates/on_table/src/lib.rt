// Handlers of tables and of their heads and bodies, by their Rust names; and the table that is open.
#![tactic(auto)]

ghost use Rattle.std.specs.Prelude.{◌≡◌};
ghost use Rattle.event.specs.Event.{columns_of};
ghost use Rattle.machine.specs.Test.{is_past_columns};
ghost use Rattle.machine.specs.Words.{alignment, columns, no_columns, next_column, first_column};
ghost use Rattle.state_context.specs.Rel.{Any, Keeps, Sets, SetsFor, Tells, enter_of};
ghost use Rattle.on_table.specs.Table.{IsEvent, Lacks};
ghost use Rattle.machine.specs.OnTable.{on_enter_gfm_table, on_exit_gfm_table, on_enter_gfm_table_head, on_exit_gfm_table_head, on_enter_gfm_table_body, on_exit_gfm_table_body};

use event::Event;
use state_context::Context;

// ---- the table that is open: its columns, the one of the next cell, and how a cell in it is aligned

// A table begins. The extra field of its enter says its columns.
pub fn open_table(c: Context, e: Event) -> Context
    ensures { SetsFor (IsEvent e) columns c result }
{
    let mut r = c;
    let extra = e.extra;
    r.table.inside = true;
    r.table.extra = extra;
    r
}

// It ends.
pub fn close_table(c: Context) -> Context
    ensures { Sets no_columns c result }
{
    let mut r = c;
    r.table.inside = false;
    r
}

// A row begins.
pub fn first_column(c: Context) -> Context
    ensures { Sets first_column c result }
{
    let mut r = c;
    r.table.column = 0;
    r
}

// A cell ends. Past 256 the count stands: no table has so many columns.
pub fn next_column(c: Context) -> Context
    ensures { Sets next_column c result }
{
    let n = c.table.column;
    if 255 < n {
        return c;
    }
    let mut r = c;
    let column = n + 1;
    r.table.column = column;
    r
}

fn columns_in(extra: u64) -> usize
    ensures { result ≡ columns_of (enter_of extra) }
{
    write_pieces::table_enter(extra).columns()
}

// Whether the next cell is past the columns.
pub fn is_past_columns(c: Context) -> bool
    ensures { Tells Any is_past_columns c result }
{
    let n = columns_in(c.table.extra);
    n <= c.table.column
}

// How many cells the row lacks.
pub fn missing(c: Context) -> usize
    ensures { Lacks c result }
{
    columns_in(c.table.extra).saturating_sub(c.table.column)
}

// The attribute of a cell in the column.
pub fn push_alignment(c: Context, captures: &mut [u8], out: &mut [u8]) -> Context
    ensures { Keeps Any alignment c captures.old out.old result captures.new out.new }
{
    let mut r = c;
    let extra = c.table.extra;
    let column = c.table.column;
    r.buffers = write_pieces::push_align(c.buffers, captures, out, extra, column);
    r
}

// ---- handlers

pub fn on_enter_gfm_table(c: Context, e: Event, captures: &mut [u8], out: &mut [u8]) -> Context
    ensures { Keeps (IsEvent e) on_enter_gfm_table c captures.old out.old result captures.new out.new }
{
    let inside = open_table(c, e);
    let r = state_context::line_ending_if_needed(inside, captures, out);
    state_context::push(r, captures, out, b"<table>")
}

pub fn on_exit_gfm_table(c: Context, captures: &mut [u8], out: &mut [u8]) -> Context
    ensures { Keeps Any on_exit_gfm_table c captures.old out.old result captures.new out.new }
{
    let outside = close_table(c);
    let r = state_context::line_ending_if_needed(outside, captures, out);
    state_context::push(r, captures, out, b"</table>")
}

pub fn on_enter_gfm_table_head(c: Context, captures: &mut [u8], out: &mut [u8]) -> Context
    ensures { Keeps Any on_enter_gfm_table_head c captures.old out.old result captures.new out.new }
{
    let line = state_context::line_ending_if_needed(c, captures, out);
    let r = state_context::push(line, captures, out, b"<thead>");
    state_context::set_head(r, true)
}

pub fn on_exit_gfm_table_head(c: Context, captures: &mut [u8], out: &mut [u8]) -> Context
    ensures { Keeps Any on_exit_gfm_table_head c captures.old out.old result captures.new out.new }
{
    let behind = state_context::set_head(c, false);
    let r = state_context::line_ending_if_needed(behind, captures, out);
    state_context::push(r, captures, out, b"</thead>")
}

pub fn on_enter_gfm_table_body(c: Context, captures: &mut [u8], out: &mut [u8]) -> Context
    ensures { Keeps Any on_enter_gfm_table_body c captures.old out.old result captures.new out.new }
{
    state_context::push(c, captures, out, b"<tbody>")
}

pub fn on_exit_gfm_table_body(c: Context, captures: &mut [u8], out: &mut [u8]) -> Context
    ensures { Keeps Any on_exit_gfm_table_body c captures.old out.old result captures.new out.new }
{
    let r = state_context::line_ending_if_needed(c, captures, out);
    state_context::push(r, captures, out, b"</tbody>")
}
