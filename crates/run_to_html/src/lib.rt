// The HTML of a note: the line ending, the pass over definitions, the pass over all else, and the footnote section.
#![tactic(auto)]

ghost use Rattle.std.specs.Prelude.{true, false, ◌≡◌, length};
ghost use Rattle.regions.specs.Sizes.{work_size};
ghost use Rattle.state_kept.specs.Kept.{tables};
ghost use Rattle.dispatch_turns.specs.Loud.{world};
ghost use Rattle.run_to_html.specs.Renders.{Renders};
ghost use Rattle.run_to_html.specs.Private.{Begun, Finishes, FinishesAll};

use event::EventIndex;
use machine::{Fixed, Options};
use run_answer::Full;
use state_whole::Whole;

// Before the first event.
fn begin(fixed: Fixed) -> Whole
    ensures { Begun fixed result }
{
    let kept = state_kept::new();
    let links = state_media::new();
    Whole {
        context: state_context::new(fixed),
        links,
        kept,
    }
}

// Behind the last event: the footnote section, where anything was called.
fn finish(
    b: Whole,
    text: &[u8],
    events: &[u8],
    work: &[u8],
    footnotes: &[usize],
    calls: &[usize],
    out: &mut [u8],
) -> Result<usize, Full>
    ensures { Finishes b text.now events.now work.now footnotes.now calls.now out.old out.new result }
{
    let c = b.context;
    let k = b.kept;
    let at = c.buffers.page;
    if k.calls == 0 {
        return Ok(at);
    }
    let fixed = state_context::fixed_in(c);
    let end = write_section::footnote_section(k, fixed, text, work, footnotes, calls, out, at);
    if out.len() < end {
        let n = event::count(events);
        return Err(Full::Page(EventIndex(n)));
    }
    Ok(end)
}

// The pass over all but definitions, and the rest.
fn second(
    b: Whole,
    text: &[u8],
    events: &[u8],
    options: Options,
    work: &mut [u8],
    starts: &mut [usize],
    out: &mut [u8],
    definitions: &mut [usize],
    footnotes: &mut [usize],
    calls: &mut [usize],
    labels: &mut [usize],
) -> Result<usize, Full>
    requires { length work.old ≡ work_size }
    ensures { FinishesAll false text.now events.now options b (world work.old out.old starts.old (tables definitions.old footnotes.old calls.old labels.old)) out.new result }
{
    let c = run_pass::pass(
        b,
        false,
        text,
        events,
        options,
        work,
        starts,
        out,
        definitions,
        footnotes,
        calls,
        labels,
    )?;
    finish(c, text, events, work, footnotes, calls, out)
}

// Both passes, and the rest.
fn compile(
    b: Whole,
    text: &[u8],
    events: &[u8],
    options: Options,
    work: &mut [u8],
    starts: &mut [usize],
    out: &mut [u8],
    definitions: &mut [usize],
    footnotes: &mut [usize],
    calls: &mut [usize],
    labels: &mut [usize],
) -> Result<usize, Full>
    requires { length work.old ≡ work_size }
    ensures { FinishesAll true text.now events.now options b (world work.old out.old starts.old (tables definitions.old footnotes.old calls.old labels.old)) out.new result }
{
    let c = run_pass::pass(
        b,
        true,
        text,
        events,
        options,
        work,
        starts,
        out,
        definitions,
        footnotes,
        calls,
        labels,
    )?;
    second(
        c,
        text,
        events,
        options,
        work,
        starts,
        out,
        definitions,
        footnotes,
        calls,
        labels,
    )
}

// The page of a text and its events, in the first bytes of the output. What the work bytes held before does not matter.
pub fn to_html(
    text: &[u8],
    events: &[u8],
    options: Options,
    out: &mut [u8],
    work: &mut [u8],
) -> Result<usize, Full>
    requires { length work.old ≡ work_size }
    ensures { Renders text.now events.now options out.old out.new result }
{
    let mut starts = [0usize; 64];
    let mut definitions = [0usize; state_kept::DEFINITION_WORDS];
    let mut footnotes = [0usize; state_kept::FOOTNOTE_WORDS];
    let mut calls = [0usize; state_kept::CALL_WORDS];
    let mut labels = [0usize; state_kept::LABEL_WORDS];
    let default = options.ending;
    let ending = run_line_ending::find_ending(text, events, default);
    let names = options.names;
    let apostrophes = options.escape_apostrophes;
    let fixed = Fixed {
        ending,
        names,
        apostrophes,
    };
    let b = begin(fixed);
    compile(
        b,
        text,
        events,
        options,
        work,
        &mut starts,
        out,
        &mut definitions,
        &mut footnotes,
        &mut calls,
        &mut labels,
    )
}
