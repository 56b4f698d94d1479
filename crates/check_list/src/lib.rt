// The checker (RULES R7.3): whether a list of events and its text meet the rules, refusals 1 to 7 in the order of their numbers.
#![tactic(auto)]

ghost use Rattle.std.specs.Prelude.{◌≡◌};
ghost use Rattle.check_events.specs.Looked.{Passes};
ghost use Rattle.check_list.specs.Checked.{refusal_of, sizes_hold, Checks, number_of, place_of};
ghost use Rattle.check_list.specs.Stairs.{from_fields, from_slices};

use check_events::{Fault, Passed};
use event::{Event, EventIndex};

// Why a list is refused: 1 to 7 (RULES R7.1), with the event where there is one. Left open at the end, it is the count of events.
#[derive(Clone, Copy)]
pub enum Refusal {
    WrongLength,
    NotUtf8,
    Field(EventIndex),
    Nested(EventIndex),
    Slice(EventIndex),
    Count(EventIndex),
    Label(EventIndex),
}

impl From<Fault> for Refusal {
    ghost from_gives = { λ f r. r ≡ refusal_of f };

    fn from(f: Fault) -> Refusal {
        match f {
            Fault::Field(i) => Refusal::Field(EventIndex(i)),
            Fault::Nested(i) => Refusal::Nested(EventIndex(i)),
        }
    }
}

impl Refusal {
    // Its number (RULES R7.1).
    pub fn number(self) -> u32
        ensures { result ≡ number_of (Err self) }
    {
        match self {
            Refusal::WrongLength => 1,
            Refusal::NotUtf8 => 2,
            Refusal::Field(_) => 3,
            Refusal::Nested(_) => 4,
            Refusal::Slice(_) => 5,
            Refusal::Count(_) => 6,
            Refusal::Label(_) => 7,
        }
    }

    // Its place.
    pub fn place(self) -> usize
        ensures { result ≡ place_of (Err self) }
    {
        match self {
            Refusal::WrongLength | Refusal::NotUtf8 => 0,
            Refusal::Field(i) => i.0,
            Refusal::Nested(i) => i.0,
            Refusal::Slice(i) => i.0,
            Refusal::Count(i) => i.0,
            Refusal::Label(i) => i.0,
        }
    }
}

// The most bytes of text.
pub const MOST_TEXT: usize = 64000;

// The most bytes of events: 3,200 records.
pub const MOST_EVENTS: usize = 3200 * Event::SIZE;

// All of the rules.
pub fn check(text: &[u8], events: &[u8]) -> Result<(), Refusal>
    ensures { Checks text.now events.now result }
{
    if !sizes_hold(text, events) {
        return Err(Refusal::WrongLength);
    }
    if !utf8::is_utf8(text) {
        return Err(Refusal::NotUtf8);
    }
    from_fields(text, events)
}

// An answer's number (RULES R7.1): 0 is yes.
pub fn number(c: Result<(), Refusal>) -> u32
    ensures { result ≡ number_of c }
{
    match c {
        Ok(()) => 0,
        Err(r) => r.number(),
    }
}

// A refusal's place.
pub fn place(c: Result<(), Refusal>) -> usize
    ensures { result ≡ place_of c }
{
    match c {
        Ok(()) => 0,
        Err(r) => r.place(),
    }
}

// 1: the text's length, and whole records, no more of them than there may be.
fn sizes_hold(text: &[u8], events: &[u8]) -> bool
    ensures { result ≡ sizes_hold text.now events.now }
{
    (text.len() <= MOST_TEXT) & (events.len() <= MOST_EVENTS) & (events.len() % Event::SIZE == 0)
}

// From 3 on: one walk answers for 3 to 6.
fn from_fields(text: &[u8], events: &[u8]) -> Result<(), Refusal>
    ensures { result ≡ from_fields text.now events.now }
{
    let passed = check_events::look(text, events)?;
    through(text, events, passed)
}

// From 5 on, by what the walk found. A list without a link, an image or a call does not break 7.
fn through(text: &[u8], events: &[u8], p: Passed) -> Result<(), Refusal>
    requires { Passes text.now events.now p }
    ensures { result ≡ from_slices text.now events.now }
{
    if let Some(i) = p.slices {
        return Err(Refusal::Slice(EventIndex(i)));
    }
    if let Some(i) = p.counts {
        return Err(Refusal::Count(EventIndex(i)));
    }
    if !p.uses {
        return Ok(());
    }
    if let Some(i) = check_labels::check_labels(text, events) {
        return Err(Refusal::Label(EventIndex(i)));
    }
    Ok(())
}
