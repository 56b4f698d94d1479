// Handlers of setext headings, by their Rust names. The text waits among the held bytes until its underline gives the rank.
#![tactic(auto)]

ghost use Rattle.machine.specs.Command.{◌▸◌};
ghost use Rattle.machine.specs.Words.{put, line_ending_if_needed, release};
ghost use Rattle.machine.specs.OnSetext.{setext_rank, on_exit_heading_setext_text, on_exit_heading_setext_underline_sequence};
ghost use Rattle.state_context.specs.Rel.{Any, Sees, Keeps};
ghost use Rattle.state_whole.specs.Whole.{Always, Held, Roomy, OnWork, OnPage};
ghost use Rattle.on_setext.specs.Setext.{Underlined, TellsDash};

use event::Event;
use state_context::Context;
use state_whole::Whole;

pub fn on_exit_heading_setext_text(b: Whole, work: &mut [u8], starts: &[usize]) -> Whole
    ensures { OnWork Roomy Any on_exit_heading_setext_text b work.old starts.now result work.new }
{
    let mut r = b;
    let mut c = b.context;
    let from = c.buffers.start;
    let n = on_link::captured_length(c);
    r.links = state_media::hold(b.links, work, from, n);
    c.buffers = state_buffers::drop(b.context.buffers, starts);
    r.context = state_context::set_slurp(c, true);
    r
}

// ---- the underline

// Whether the event's slice starts with a dash; where it has no byte the machine stops.
fn is_dash(text: &[u8], e: Event) -> bool
    ensures { TellsDash text.now e result }
{
    let at = e.from.0;
    if text.len() <= at {
        return false;
    }
    text[at] == b'-'
}

fn push_rank(c: Context, dashes: bool, captures: &mut [u8], out: &mut [u8]) -> Context
    ensures { Keeps (Underlined dashes) setext_rank c captures.old out.old result captures.new out.new }
{
    if dashes {
        return state_context::push(c, captures, out, b"2");
    }
    state_context::push(c, captures, out, b"1")
}

fn push_start(c: Context, dashes: bool, captures: &mut [u8], out: &mut [u8]) -> Context
    ensures { Keeps (Underlined dashes) (line_ending_if_needed ▸ put "<h" ▸ setext_rank ▸ put ">") c captures.old out.old result captures.new out.new }
{
    let line = state_context::line_ending_if_needed(c, captures, out);
    let open = state_context::push(line, captures, out, b"<h");
    let r = push_rank(open, dashes, captures, out);
    state_context::push(r, captures, out, b">")
}

fn push_end(c: Context, dashes: bool, captures: &mut [u8], out: &mut [u8]) -> Context
    ensures { Keeps (Underlined dashes) (put "</h" ▸ setext_rank ▸ put ">") c captures.old out.old result captures.new out.new }
{
    let close = state_context::push(c, captures, out, b"</h");
    let r = push_rank(close, dashes, captures, out);
    state_context::push(r, captures, out, b">")
}

fn start_heading(b: Whole, dashes: bool, work: &mut [u8], out: &mut [u8]) -> Whole
    ensures { OnPage Always (Underlined dashes) (line_ending_if_needed ▸ put "<h" ▸ setext_rank ▸ put ">") b work.old out.old result work.new out.new }
{
    if work.len() < regions::SIZE {
        return b;
    }
    let mut r = b;
    r.context = push_start(b.context, dashes, &mut work[0..regions::SIZE], out);
    r
}

fn end_heading(b: Whole, dashes: bool, work: &mut [u8], out: &mut [u8]) -> Whole
    ensures { OnPage Always (Underlined dashes) (put "</h" ▸ setext_rank ▸ put ">") b work.old out.old result work.new out.new }
{
    if work.len() < regions::SIZE {
        return b;
    }
    let mut r = b;
    r.context = push_end(b.context, dashes, &mut work[0..regions::SIZE], out);
    r
}

// The text that waited is written, and waits no more.
fn release_text(b: Whole, work: &mut [u8], out: &mut [u8]) -> Whole
    ensures { OnPage Held Any release b work.old out.old result work.new out.new }
{
    let l = b.links;
    let setext = l.setext;
    match setext {
        None => b,
        Some(p) => {
            let mut r = b;
            let mut c = b.context;
            c.buffers = write_held::push_piece(
                b.context.buffers,
                work,
                out,
                regions::HELD_AT,
                p.place,
                p.length,
            );
            r.context = c;
            r.links = state_media::release(b.links);
            r
        }
    }
}

pub fn on_exit_heading_setext_underline_sequence(
    b: Whole,
    text: &[u8],
    e: Event,
    work: &mut [u8],
    out: &mut [u8],
) -> Whole
    ensures { OnPage Held (Sees text.now e) on_exit_heading_setext_underline_sequence b work.old out.old result work.new out.new }
{
    let dashes = is_dash(text, e);
    let started = start_heading(b, dashes, work, out);
    let r = release_text(started, work, out);
    end_heading(r, dashes, work, out)
}
