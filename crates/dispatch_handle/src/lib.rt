// The event at an index goes to its handler: by whether that concerns the context alone, by enter or exit, and by its name. Enters of the context alone go to `dispatch_enter`.
#![tactic(auto)]

ghost use Rattle.std.specs.Prelude.{◌<◌, false, not, ◌≡◌};
ghost use Rattle.event.specs.Event.{count_of, is_enter};
ghost use Rattle.state_kept.specs.Kept.{tables};
ghost use Rattle.state_whole.specs.Quiet.{is_quiet};
ghost use Rattle.dispatch_turns.specs.Turns.{command_for};
ghost use Rattle.dispatch_turns.specs.Loud.{world};
ghost use Rattle.dispatch_handle.specs.Handled.{Quietly, Wholly};

use event::{Event, EventIndex};
use machine::Options;
use state_context::Context;
use state_whole::Whole;

// Whether an event concerns more than the context: media, definitions, footnotes or a setext heading.
pub fn is_whole(e: Event) -> bool
    ensures { result ≡ not (is_quiet (command_for e)) }
{
    if e.is_enter() {
        return dispatch_media::enters_whole(e.name);
    }
    dispatch_media::exits_whole(e.name)
}

// An exit that concerns the context alone, as `dispatch_enter::on_enter` does for enters. The rest of the state is not even passed: what is passed is copied.
pub fn handle_exit(
    c: Context,
    text: &[u8],
    events: &[u8],
    i: EventIndex,
    e: Event,
    options: Options,
    captures: &mut [u8],
    starts: &mut [usize],
    out: &mut [u8],
) -> Context
    requires { (i.0 < count_of events.now) × (is_enter e ≡ false) }
    ensures { Quietly text.now events.now options i.0 e c captures.old starts.old out.old result captures.new starts.new out.new }
{
    if dispatch_exit_inline::is_text(e.name) {
        return dispatch_exit_inline::on_exit(c, text, events, i, e, options, captures, starts, out);
    }
    dispatch_exit_block::on_exit(c, text, events, i, e, captures, starts, out)
}

// Any other.
pub fn handle_whole(
    b: Whole,
    text: &[u8],
    e: Event,
    options: Options,
    work: &mut [u8],
    starts: &mut [usize],
    out: &mut [u8],
    definitions: &mut [usize],
    footnotes: &mut [usize],
    calls: &mut [usize],
    labels: &mut [usize],
) -> Whole
    ensures { Wholly text.now options e b (world work.old out.old starts.old (tables definitions.old footnotes.old calls.old labels.old)) result (world work.new out.new starts.new (tables definitions.new footnotes.new calls.new labels.new)) }
{
    if e.is_enter() {
        return dispatch_media::on_enter(b, e, starts);
    }
    dispatch_media::on_exit(
        b,
        text,
        e,
        options,
        work,
        starts,
        out,
        definitions,
        footnotes,
        calls,
        labels,
    )
}
