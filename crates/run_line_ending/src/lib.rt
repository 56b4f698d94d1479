// The line ending of a page (RULES R9.3): the slice of the earliest exit of one, blank or not, else the default.
#![tactic(auto)]

ghost use Rattle.std.specs.Prelude.{◌<◌, ◌≤◌, ◌≡◌, length};
ghost use Rattle.run_line_ending.specs.Ending.{EndsLine, Parses, Finds};

use event::{Event, EventIndex};
use machine::Ending;

fn ends_line(e: Event) -> bool
    ensures { EndsLine e result }
{
    if e.is_enter() {
        return false;
    }
    (e.name == Event::LINE_ENDING) | (e.name == Event::BLANK_LINE_ENDING)
}

// By the event's slice.
fn parse(text: &[u8], e: Event) -> Ending
    ensures { Parses text.now e result }
{
    let from = e.from.0;
    let to = e.to.0;
    if text.len() <= from {
        return Ending::Lf;
    }
    if text[from] == b'\n' {
        return Ending::Lf;
    }
    if to <= from {
        return Ending::Lf;
    }
    if to - from == 1 {
        return Ending::Cr;
    }
    Ending::CrLf
}

pub fn find_ending(text: &[u8], events: &[u8], default: Ending) -> Ending
    ensures { Finds default text.now events.now result }
{
    let n = event::count(events);
    for i in 0..n {
        let e = Event::read(events, EventIndex(i));
        if ends_line(e) {
            return parse(text, e);
        }
    }
    default
}
