// Refusal 3: whether an event's fields meet their rules. `check_events` walks over all events.
#![tactic(auto)]

ghost use Rattle.std.specs.Prelude.{◌≡◌};
ghost use Rattle.check_fields.specs.Fields.{table_extra, extra_holds, enter_holds, most_spaces, spaces_hold, slice_holds, exit_holds, fields_hold};

use event::Event;

// The most columns that a table has.
const MOST_COLUMNS: usize = 24;

// The most virtual spaces at an end of a code chunk.
const MOST_SPACES: u8 = 3;

#[tactic(auto, unfolding(crate::specs::Fields::table_extra))]
fn table_extra(e: Event) -> bool
    ensures { result ≡ table_extra e }
{
    let columns = e.columns();
    1 <= columns && columns <= MOST_COLUMNS && e.extra >> (8 + 2 * columns) == 0
}

#[tactic(auto, using(crate::proofs::Cases::of_none), unfolding(crate::specs::Fields::extra_holds))]
fn extra_holds(e: Event) -> bool
    ensures { result ≡ extra_holds e }
{
    // most have none, and only a table needs one
    if e.extra == 0 {
        return e.name != Event::GFM_TABLE;
    }
    match e.name {
        Event::LIST_ORDERED | Event::LIST_UNORDERED => e.extra <= 1,
        Event::GFM_TABLE => table_extra(e),
        _ => false,
    }
}

#[tactic(auto, unfolding(crate::specs::Fields::enter_holds))]
fn enter_holds(e: Event) -> bool
    ensures { result ≡ enter_holds e }
{
    (e.from.0 == 0) & (e.to.0 == 0) & (e.before == 0) & (e.after == 0) && extra_holds(e)
}

fn most_spaces(e: Event) -> u8
    ensures { result ≡ most_spaces e }
{
    if e.name == Event::CODE_FLOW_CHUNK {
        return MOST_SPACES;
    }
    0
}

#[tactic(auto, unfolding(crate::specs::Fields::spaces_hold))]
fn spaces_hold(e: Event) -> bool
    ensures { result ≡ spaces_hold e }
{
    if (e.before == 0) & (e.after == 0) {
        return true;
    }
    let most = most_spaces(e);
    (e.before <= most) & (e.after <= most)
}

#[tactic(auto, unfolding(crate::specs::Fields::slice_holds))]
fn slice_holds(text: &[u8], e: Event) -> bool
    ensures { result ≡ slice_holds text.now e }
{
    let from = e.from.0;
    let to = e.to.0;
    from <= to && to <= text.len() && !utf8::is_inside(text, from) && !utf8::is_inside(text, to)
}

#[tactic(auto, unfolding(crate::specs::Fields::exit_holds))]
fn exit_holds(text: &[u8], e: Event) -> bool
    ensures { result ≡ exit_holds text.now e }
{
    e.extra == 0 && spaces_hold(e) && slice_holds(text, e)
}

// Whether an event's fields hold.
#[tactic(auto, unfolding(crate::specs::Fields::fields_hold))]
pub fn fields_hold(text: &[u8], e: Event) -> bool
    ensures { result ≡ fields_hold text.now e }
{
    if Event::GFM_FOOTNOTE_DEFINITION_LABEL_STRING < e.name {
        return false;
    }
    match e.kind {
        Event::ENTER => enter_holds(e),
        Event::EXIT => exit_holds(text, e),
        _ => false,
    }
}
