// Where a pass goes next: the first event from a place on at which something is to be done.
#![tactic(auto)]

ghost use Rattle.run_next.specs.Idle.{Idles};
ghost use Rattle.std.specs.Prelude.{◌<◌, true, false, ◌≡◌};
ghost use Rattle.event.specs.Event.{count_of, event_at};
ghost use Rattle.dispatch_turns.specs.Passing.{is_here, stays_inside};
ghost use Rattle.run_next.specs.Reach.{wanted};
ghost use Rattle.run_next.specs.Walks.{PassesOver, Walks, Ahead};

use event::{Event, EventIndex};

// ---- events without a handler: they leave the state as it is, and a pass goes on at once

// A bit for each name below 64, the lowest for 0, whose enter has no handler.
const IDLE_ENTERS: u64 = 0x0001_1E55_258D_6FFF;

// The same for exits.
const IDLE_EXITS: u64 = 0x0301_0087;

// Whether an event of this kind and name is known to have none.
pub fn is_idle(kind: u8, name: u8) -> bool
    ensures { Idles kind name result }
{
    if 63 < name {
        return false;
    }
    if kind == Event::ENTER {
        return IDLE_ENTERS >> name & 1 == 1;
    }
    IDLE_EXITS >> name & 1 == 1
}

// ---- the walk

// Where a pass stands: before the event at an index, inside a definition or not.
#[derive(Clone, Copy)]
pub struct Place {
    pub at: usize,
    pub inside: bool,
}

// Whether the event at an index is in a definition, whose enter and exit are.
fn is_here(inside: bool, events: &[u8], i: EventIndex) -> bool
    requires { i.0 < count_of events.now }
    ensures { result ≡ is_here inside (event_at events.now i.0) }
{
    if inside {
        return true;
    }
    if event::kind_at(events, i) != Event::ENTER {
        return false;
    }
    event::name_at(events, i) == Event::DEFINITION
}

// Whether the next one is.
pub fn stays_inside(inside: bool, events: &[u8], i: EventIndex) -> bool
    requires { i.0 < count_of events.now }
    ensures { result ≡ stays_inside inside (event_at events.now i.0) }
{
    if is_here(inside, events, i) {
        if event::kind_at(events, i) == Event::ENTER {
            return true;
        }
        return event::name_at(events, i) != Event::DEFINITION;
    }
    false
}

// Whether the event is the pass's.
fn is_wanted(definitions: bool, inside: bool, events: &[u8], i: EventIndex) -> bool
    requires { i.0 < count_of events.now }
    ensures { result ≡ wanted definitions inside (event_at events.now i.0) }
{
    if definitions {
        return is_here(inside, events, i);
    }
    !is_here(inside, events, i)
}

// Whether nothing is to be done at the event: it is not the pass's, or it has no handler.
fn is_left(first: bool, inside: bool, events: &[u8], i: EventIndex) -> bool
    requires { i.0 < count_of events.now }
    ensures { PassesOver first inside (event_at events.now i.0) result }
{
    if is_wanted(first, inside, events, i) {
        return is_idle(event::kind_at(events, i), event::name_at(events, i));
    }
    true
}

// Whether the event at an index is the enter of a definition. The name comes first: that is seldom one, so the branch is foreseen.
fn is_definition(events: &[u8], i: EventIndex) -> bool
    requires { i.0 < count_of events.now }
    ensures { result ≡ is_here false (event_at events.now i.0) }
{
    if event::name_at(events, i) != Event::DEFINITION {
        return false;
    }
    event::kind_at(events, i) == Event::ENTER
}

// The first one from an index on, or the end.
fn next_definition(events: &[u8], from: usize) -> usize
    ensures { Walks true events.now false from false result }
{
    let n = event::count(events);
    for i in from..n {
        if is_definition(events, EventIndex(i)) {
            return i;
        }
    }
    n.max(from)
}

// The pass over definitions need not look at what is between them.
fn jump(first: bool, p: Place, events: &[u8]) -> Place
    ensures { Walks first events.now p.inside p.at result.inside result.at }
{
    if first {
        if p.inside {
            return p;
        }
        let at = next_definition(events, p.at);
        return Place { at, inside: false };
    }
    p
}

// The first event from a place on at which something is to be done, or the end.
fn walk(first: bool, p: Place, events: &[u8]) -> Place
    ensures { Ahead first events.now p result }
{
    let n = event::count(events);
    let start = p.at;
    let mut inside = p.inside;
    for at in start..n {
        let i = EventIndex(at);
        if is_left(first, inside, events, i) {
            inside = stays_inside(inside, events, i);
            continue;
        }
        return Place { at, inside };
    }
    let at = n.max(start);
    Place { at, inside }
}

pub fn ahead(first: bool, p: Place, events: &[u8]) -> Place
    ensures { Ahead first events.now p result }
{
    walk(first, jump(first, p, events), events)
}
