// Refusals 5 and 6: the slices of exits, and how many definitions there are. `check_events` walks over all events.
#![tactic(auto)]

ghost use Rattle.std.specs.Prelude.{◌≡◌};
ghost use Rattle.lent.specs.Bytes.{all, is_digit};
ghost use Rattle.check_slices.specs.Slices.{is_ending, is_item_value, is_level, is_underline, seen_behind, slice_holds, part, event_holds};
ghost use Rattle.check_slices.specs.Counts.{Few, counted_behind, count_holds};

use character_reference::Marker;
use event::Event;

// What the slices' rules look back for: whether a 14 was left since the newest 13 began, and the newest marker.
#[derive(Clone, Copy)]
pub struct Seen {
    pub sequence: bool,
    pub marker: Marker,
}

// How many definitions and footnote definitions began.
#[derive(Clone, Copy)]
pub struct Counts {
    pub definitions: usize,
    pub footnotes: usize,
}

// ---- the rules of slices

// LF, CR or CR LF.
#[tactic(auto, unfolding(crate::specs::Slices::is_ending))]
fn is_ending(s: &[u8]) -> bool
    ensures { result ≡ is_ending s.now }
{
    match s {
        [b] => *b == b'\n' || *b == b'\r',
        [a, b] => *a == b'\r' && *b == b'\n',
        _ => false,
    }
}

fn are_digits(s: &[u8]) -> bool
    ensures { result ≡ all is_digit s.now }
{
    s.iter().all(|b| b.is_ascii_digit())
}

// 1 to 9 digits.
#[tactic(auto, unfolding(crate::specs::Slices::is_item_value))]
fn is_item_value(s: &[u8]) -> bool
    ensures { result ≡ is_item_value s.now }
{
    !s.is_empty() && s.len() <= 9 && are_digits(s)
}

// 1 to 6 bytes.
fn is_level(s: &[u8]) -> bool
    ensures { result ≡ is_level s.now }
{
    !s.is_empty() && s.len() <= 6
}

// Starts with `-` or `=`.
#[tactic(auto, unfolding(crate::specs::Slices::is_underline))]
fn is_underline(s: &[u8]) -> bool
    ensures { result ≡ is_underline s.now }
{
    matches!(s, [b'-' | b'=', ..])
}

// Whether the slice of an exit keeps its rule.
#[tactic(auto, unfolding(crate::specs::Slices::slice_holds))]
fn slice_holds(seen: Seen, name: u8, s: &[u8]) -> bool
    ensures { result ≡ slice_holds seen name s.now }
{
    match name {
        Event::LINE_ENDING | Event::BLANK_LINE_ENDING => is_ending(s),
        Event::LIST_ITEM_VALUE => is_item_value(s),
        Event::HEADING_ATX_SEQUENCE => seen.sequence || is_level(s),
        Event::HEADING_SETEXT_UNDERLINE_SEQUENCE => is_underline(s),
        Event::CHARACTER_REFERENCE_VALUE => character_reference::is_reference(seen.marker, s),
        _ => true,
    }
}

// ---- an event

// The bytes from..to; as many of them as there are.
fn bytes_of(text: &[u8], from: usize, to: usize) -> &[u8]
    ensures { result.now ≡ part text.now from to }
{
    let end = to.min(text.len());
    let start = from.min(end);
    &text[start..end]
}

// Whether an event keeps the rule of its slice: an enter has none.
#[tactic(auto, unfolding(crate::specs::Slices::event_holds))]
pub fn event_holds(text: &[u8], seen: Seen, e: Event) -> bool
    ensures { result ≡ event_holds text.now seen e }
{
    e.is_enter() || slice_holds(seen, e.name, bytes_of(text, e.from.0, e.to.0))
}

#[tactic(auto, unfolding(crate::specs::Slices::seen_behind))]
pub fn seen_behind(seen: Seen, e: Event) -> Seen
    ensures { result ≡ seen_behind seen e }
{
    if e.is_enter() {
        if e.name == Event::HEADING_ATX {
            return Seen {
                sequence: false,
                ..seen
            };
        }
        return seen;
    }
    let marker = match e.name {
        Event::HEADING_ATX_SEQUENCE => {
            return Seen {
                sequence: true,
                ..seen
            };
        }
        Event::CHARACTER_REFERENCE_MARKER => Marker::Named,
        Event::CHARACTER_REFERENCE_MARKER_NUMERIC => Marker::Decimal,
        Event::CHARACTER_REFERENCE_MARKER_HEXADECIMAL => Marker::Hexadecimal,
        _ => return seen,
    };
    Seen { marker, ..seen }
}

// ---- the counts

const MOST_DEFINITIONS: usize = 128;

const MOST_FOOTNOTES: usize = 64;

#[tactic(auto, unfolding(crate::specs::Counts::count_holds))]
pub fn count_holds(n: Counts, e: Event) -> bool
    ensures { result ≡ count_holds n e }
{
    if !e.is_enter() {
        return true;
    }
    match e.name {
        Event::DEFINITION => n.definitions < MOST_DEFINITIONS,
        Event::GFM_FOOTNOTE_DEFINITION => n.footnotes < MOST_FOOTNOTES,
        _ => true,
    }
}

#[tactic(auto, unfolding(crate::specs::Counts::counted_behind))]
pub fn counted_behind(n: Counts, e: Event) -> Counts
    requires { Few n }
    ensures { result ≡ counted_behind n e }
{
    if !e.is_enter() {
        return n;
    }
    match e.name {
        Event::DEFINITION => Counts {
            definitions: n.definitions + 1,
            ..n
        },
        Event::GFM_FOOTNOTE_DEFINITION => Counts {
            footnotes: n.footnotes + 1,
            ..n
        },
        _ => n,
    }
}
