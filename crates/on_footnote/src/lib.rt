// Handlers of footnotes, by their Rust names.
#![tactic(auto)]

ghost use Rattle.machine.specs.OnFootnote.{on_enter_gfm_footnote_call, on_exit_gfm_footnote_call, on_exit_gfm_footnote_definition_label_string, on_exit_gfm_footnote_definition, on_enter_gfm_footnote_definition, on_exit_gfm_footnote_definition_prefix};
ghost use Rattle.machine.specs.Words.{keep_footnote};
ghost use Rattle.state_context.specs.Rel.{Any, Sets, Renews};
ghost use Rattle.state_whole.specs.Whole.{Always, Held, Roomy, Unlent};
ghost use Rattle.on_footnote.specs.Footnotes.{IsEvent, OnLabels, OnFootnotes, OnCalls};
ghost use Rattle.on_footnote.specs.Private.{CallsLabel, WritesCall};

use event::Event;
use state_buffers::Buffers;
use state_context::Context;
use state_media::Span;
use state_whole::Whole;

// ---- calls

pub fn on_enter_gfm_footnote_call(b: Whole) -> Whole
    ensures { Unlent Always Any on_enter_gfm_footnote_call b result }
{
    let mut r = b;
    r.links = state_media::open_media(b.links, false);
    r
}

pub fn on_exit_gfm_footnote_call(
    b: Whole,
    text: &[u8],
    work: &mut [u8],
    out: &mut [u8],
    calls: &mut [usize],
) -> Whole
    ensures { OnCalls Held on_exit_gfm_footnote_call b text.now work.old out.old calls.old result work.new out.new calls.new }
{
    let l = b.links;
    let m = l.media;
    let label = m.label_id;
    match label {
        None => b,
        Some(p) => call_label(b, p, text, work, out, calls),
    }
}

pub fn on_enter_gfm_footnote_definition(c: Context) -> Context
    ensures { Sets on_enter_gfm_footnote_definition c result }
{
    state_context::open_container(c, false)
}

// A label is called: counted in an image's text too, but not written there.
fn call_label(
    b: Whole,
    p: Span,
    text: &[u8],
    work: &mut [u8],
    out: &mut [u8],
    calls: &mut [usize],
) -> Whole
    ensures { CallsLabel p b text.now work.old out.old calls.old result work.new out.new calls.new }
{
    let from = p.from.0;
    let to = p.to.0;
    let index = state_kept::call_index(b.kept, text, from, to, calls);
    let mut r = b;
    r.kept = state_kept::count_call(b.kept, index, text, from, to, calls);
    r.links = state_media::close_media(b.links);
    if state_context::is_alt(b.context) {
        return r;
    }
    let times = state_kept::times_at(calls, index);
    let mut c = b.context;
    let apostrophes = state_context::apostrophes_in(c);
    c.buffers = write_call(
        c.buffers,
        text,
        from,
        to,
        apostrophes,
        index,
        times,
        work,
        out,
    );
    r.context = c;
    r
}

// Writes the call of the label from one place of the text to another.
fn write_call(
    b: Buffers,
    text: &[u8],
    from: usize,
    to: usize,
    apostrophes: bool,
    index: usize,
    times: usize,
    work: &mut [u8],
    out: &mut [u8],
) -> Buffers
    ensures { WritesCall apostrophes b text.now from to index times work.old out.old result work.new out.new }
{
    let Some(label) = text.get(from..to) else {
        return b;
    };
    if work.len() < regions::SIZE {
        return b;
    }
    if 64 <= index {
        return b;
    }
    let captures = &mut work[0..regions::SIZE];
    write_footnote::push_call(b, captures, out, label, apostrophes, index + 1, times)
}

// ---- definitions

pub fn on_exit_gfm_footnote_definition_label_string(
    b: Whole,
    e: Event,
    labels: &mut [usize],
) -> Whole
    ensures { OnLabels Always (IsEvent e) on_exit_gfm_footnote_definition_label_string b labels.old result labels.new }
{
    let mut r = b;
    r.kept = state_kept::open_label(b.kept, e.from.0, e.to.0, labels);
    r
}

// Of a footnote definition: the prefix is dropped; everything until the end of the definition is captured.
pub fn on_exit_gfm_footnote_definition_prefix(c: Context, starts: &mut [usize]) -> Context
    ensures { Renews on_exit_gfm_footnote_definition_prefix c starts.old result starts.new }
{
    let r = state_context::drop(c, starts);
    state_context::open(r, starts)
}

pub fn on_exit_gfm_footnote_definition(
    b: Whole,
    text: &[u8],
    work: &mut [u8],
    starts: &[usize],
    footnotes: &mut [usize],
    labels: &[usize],
) -> Whole
    ensures { OnFootnotes Roomy on_exit_gfm_footnote_definition b text.now work.old starts.now footnotes.old labels.now result work.new footnotes.new }
{
    let k = keep_body(b, text, work, starts, footnotes, labels);
    let mut r = k;
    r.context = state_context::close_container(k.context);
    r
}

// The newest capture is the body of the newest open footnote.
fn keep_body(
    b: Whole,
    text: &[u8],
    work: &mut [u8],
    starts: &[usize],
    footnotes: &mut [usize],
    labels: &[usize],
) -> Whole
    ensures { OnFootnotes Roomy keep_footnote b text.now work.old starts.now footnotes.old labels.now result work.new footnotes.new }
{
    let mut r = b;
    let mut c = b.context;
    let from = c.buffers.start;
    let to = c.buffers.end;
    if to < from {
        return b;
    }
    r.kept = state_kept::keep_footnote(b.kept, text, from, to - from, work, footnotes, labels);
    c.buffers = state_buffers::drop(b.context.buffers, starts);
    r.context = c;
    r
}
