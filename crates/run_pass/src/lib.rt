// A pass over the events, definitions or all else, and after each event the limits.
#![tactic(auto)]

ghost use Rattle.std.specs.Prelude.{◌≡◌, length};
ghost use Rattle.regions.specs.Sizes.{work_size};
ghost use Rattle.state_kept.specs.Kept.{tables};
ghost use Rattle.dispatch_turns.specs.Loud.{world};
ghost use Rattle.run_pass.specs.Passing.{Passes};
ghost use Rattle.run_pass.specs.Private.{full_of};

use event::{Event, EventIndex};
use machine::Options;
use run_answer::Full;
use run_next::Place;
use state_whole::{Shortage, Whole};

// What lacks room, after this event.
fn full(l: Option<Shortage>, place: EventIndex) -> Full
    ensures { result ≡ full_of l place }
{
    match l {
        Some(Shortage::Work) => Full::Work(place),
        Some(Shortage::Page) => Full::Page(place),
        None => Full::Page(place),
    }
}

// The events of definitions, or all others, in order, up to the first after which there is no room.
pub fn pass(
    b: Whole,
    first: bool,
    text: &[u8],
    events: &[u8],
    options: Options,
    work: &mut [u8],
    starts: &mut [usize],
    out: &mut [u8],
    definitions: &mut [usize],
    footnotes: &mut [usize],
    calls: &mut [usize],
    labels: &mut [usize],
) -> Result<Whole, Full>
    requires { length work.old ≡ work_size }
    ensures { Passes first text.now events.now options b (world work.old out.old starts.old (tables definitions.old footnotes.old calls.old labels.old)) result (world work.new out.new starts.new (tables definitions.new footnotes.new calls.new labels.new)) }
{
    let n = event::count(events);
    let mut r = b;
    let mut p = Place {
        at: 0,
        inside: false,
    };
    // Counted by hand: the walk says which event is next.
    let mut lack = None;
    while lack.is_none() {
        let next = run_next::ahead(first, p, events);
        let i = next.at;
        if n <= i {
            return Ok(r);
        }
        let at = EventIndex(i);
        let inside = run_next::stays_inside(next.inside, events, at);
        p = Place { at: i + 1, inside };
        let e = Event::read(events, at);
        if dispatch_handle::is_whole(e) {
            r = dispatch_handle::handle_whole(
                r,
                text,
                e,
                options,
                work,
                starts,
                out,
                definitions,
                footnotes,
                calls,
                labels,
            );
            lack = state_whole::lack(r, out.len());
            continue;
        }
        let c = r.context;
        let captures = &mut work[0..regions::SIZE];
        if e.is_enter() {
            let html = options.allow_dangerous_html;
            r.context = dispatch_enter::on_enter(c, e, html, captures, starts, out);
            lack = state_whole::lack(r, out.len());
            continue;
        }
        r.context = dispatch_handle::handle_exit(
            c, text, events, at, e, options, captures, starts, out,
        );
        lack = state_whole::lack(r, out.len());
    }
    let last = p.at - 1;
    Err(full(lack, EventIndex(last)))
}
