// What stands before an event: the look back before </li>, and two that look at one event.
#![tactic(auto)]

ghost use Rattle.std.specs.Prelude.{◌≤◌, ◌<◌, ◌≡◌, [], ◌∷◌};
ghost use Rattle.lent.specs.Bytes.{one_of};
ghost use Rattle.event.specs.Event.{count_of};
ghost use Rattle.machine.specs.Turn.{ends_at, skipping, look_back, is_after_definition};
ghost use Rattle.dispatch_look_back.specs.Behind.{events_before, name_of, is_after_fence};

use event::{Event, EventIndex};

// A definition or a footnote definition.
fn is_definition(name: u8) -> bool
    ensures { result ≡ one_of (53 ∷ 63 ∷ []) name }
{
    (name == Event::DEFINITION) | (name == Event::GFM_FOOTNOTE_DEFINITION)
}

// Of an element that leaves nothing on the page, or nothing here.
fn is_skipped(name: u8) -> bool
    ensures { result ≡ one_of (1 ∷ 2 ∷ 3 ∷ 4 ∷ 53 ∷ 63 ∷ []) name }
{
    (name == Event::SPACE_OR_TAB)
        | ((name == Event::BLOCK_QUOTE_PREFIX)
            | ((name == Event::LINE_ENDING)
                | ((name == Event::BLANK_LINE_ENDING) | is_definition(name))))
}

// Whether the look back, in so many elements that are being skipped, ends at an event.
fn ends_at(depth: usize, e: Event) -> bool
    ensures { result ≡ ends_at depth e }
{
    let exit = !e.is_enter();
    let skips = exit & is_skipped(e.name);
    (depth == 0) & !skips
}

// In how many it is behind an event: an exit goes into an element, an enter out of it.
fn skip(exit: bool, depth: usize) -> usize
    requires { depth < 0xFFFF_FFFF_FFFF_FFFF }
    ensures { result ≡ skipping exit depth }
{
    if exit {
        return depth + 1;
    }
    if depth == 0 {
        return 0;
    }
    depth - 1
}

// The name of the newest event before i that is in no element to skip, 0 if there is none.
pub fn look_back(events: &[u8], i: EventIndex) -> u8
    requires { i.0 ≤ count_of events.now }
    ensures { result ≡ name_of (look_back 0 (events_before events.now i.0)) }
{
    let mut depth: usize = 0;
    for k in (0..i.0).rev() {
        let e = Event::read(events, EventIndex(k));
        if ends_at(depth, e) {
            return e.name;
        }
        depth = skip(!e.is_enter(), depth);
    }
    Event::OTHER
}

// Whether a fence ends just before i.
pub fn fence_before(events: &[u8], i: EventIndex) -> bool
    requires { i.0 ≤ count_of events.now }
    ensures { result ≡ is_after_fence (events_before events.now i.0) }
{
    if i.0 == 0 {
        return false;
    }
    event::name_at(events, EventIndex(i.0 - 1)) == Event::CODE_FENCED_FENCE
}

// Whether a definition or footnote definition ends just before the enter of the event's own element.
pub fn behind_definition(events: &[u8], i: EventIndex) -> bool
    requires { i.0 ≤ count_of events.now }
    ensures { result ≡ is_after_definition (events_before events.now i.0) }
{
    if i.0 < 2 {
        return false;
    }
    is_definition(event::name_at(events, EventIndex(i.0 - 2)))
}
