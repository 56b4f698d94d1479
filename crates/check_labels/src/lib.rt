// The pass for 7: a link, an image or a call whose label no definition has.
#![tactic(auto)]

ghost use Rattle.std.specs.Prelude.{◌≡◌, [], ◌∷◌, ◌+◌, ◌<◌, ◌≤◌, drop};
ghost use Rattle.lent.specs.Bytes.{listed, one_of};
ghost use Rattle.event.specs.Event.{count_of, events_of, event_at};
ghost use Rattle.normalize_identifier.specs.Identity.{identity_of};
ghost use Rattle.check_labels.specs.Labels.{turn_of, own_part, sought_of, identities, is_defined, label_holds, undefined_of};
ghost use Rattle.check_labels.specs.Signature.{Signed, Signs, Puts, Skips};
ghost use Rattle.check_labels.specs.Next.{IsLabel, IsPlain};
ghost use Rattle.check_labels.specs.Uses.{Other, Seeks, IsUse, FirstFrom};

use event::{Event, EventIndex};
use signature::Signature;

// Stays our own enum: it has three answers. What an event is on the way to an element's part: passed, with so many open behind it; the part, with its slice; or the element's exit.
#[derive(Clone, Copy)]
pub enum Turn {
    On(usize),
    Own(usize, usize),
    Out,
}

// Whether the event at an index is the exit of an n.
fn is_label(events: &[u8], n: u8, i: usize) -> bool
    requires { i < count_of events.now }
    ensures { IsLabel events.now n i result }
{
    let at = EventIndex(i);
    event::name_at(events, at) == n && event::kind_at(events, at) != Event::ENTER
}

// Whether the event at an index is known to be no label of a definition or of a footnote definition.
fn is_plain(events: &[u8], i: usize) -> bool
    requires { i < count_of events.now }
    ensures { IsPlain events.now i result }
{
    let name = event::name_at(events, EventIndex(i));
    name != Event::DEFINITION_LABEL_STRING && name != Event::GFM_FOOTNOTE_DEFINITION_LABEL_STRING
}

// Puts the signature of the slice of the event at an index at the place k, if there is room.
fn put(text: &[u8], events: &[u8], i: usize, k: usize, signatures: &mut [usize])
    requires { i < count_of events.now }
    ensures { Puts text.now (event_at events.now i) k signatures.old signatures.new }
{
    if signatures.len() / 2 <= k {
        return;
    }
    let e = Event::read(events, EventIndex(i));
    let s = signature::sign(signature::part(text, e.from.0, e.to.0));
    signatures[2 * k] = s.first;
    signatures[2 * k + 1] = s.second;
}

// Signs the event at an index if it is the exit of an n: the k-th. How many there are then.
fn sign_at(text: &[u8], events: &[u8], n: u8, i: usize, k: usize, signatures: &mut [usize]) -> usize
    requires { (i < count_of events.now) × (k ≤ i) }
    ensures { Signs text.now events.now n i k signatures.old result signatures.new }
{
    if is_label(events, n, i) {
        put(text, events, i, k, signatures);
        return k + 1;
    }
    k
}

// The signatures of the labels of definitions and footnote definitions, two words each, as far as there is room.
fn sign(text: &[u8], events: &[u8], definitions: &mut [usize], footnotes: &mut [usize])
    ensures { (Signed text.now events.now 54 definitions.new) × (Signed text.now events.now 65 footnotes.new) }
{
    let mut k: usize = 0;
    let mut l: usize = 0;
    for i in 0..event::count(events) {
        if is_plain(events, i) {
            continue;
        }
        k = sign_at(
            text,
            events,
            Event::DEFINITION_LABEL_STRING,
            i,
            k,
            definitions,
        );
        l = sign_at(
            text,
            events,
            Event::GFM_FOOTNOTE_DEFINITION_LABEL_STRING,
            i,
            l,
            footnotes,
        );
    }
}

// Whether the k-th label has another signature, so that it is another label.
fn skips(signatures: &[usize], k: usize, s: Signature) -> bool
    ensures { Skips signatures.now k s result }
{
    k < signatures.len() / 2 && signature::differs(signatures[2 * k], signatures[2 * k + 1], s)
}

// Whether the label of a definition (n is 54) or of a footnote definition (65) has the identity of `label`.
fn has_label(text: &[u8], events: &[u8], n: u8, signatures: &[usize], label: &[u8]) -> bool
    requires { Signed text.now events.now n signatures.now }
    ensures { result ≡ listed (identities n text.now (events_of events.now)) (identity_of label.now) }
{
    let s = signature::sign(label);
    let mut k: usize = 0;
    for i in 0..event::count(events) {
        if !is_label(events, n, i) {
            continue;
        }
        if skips(signatures, k, s) {
            k += 1;
            continue;
        }
        let e = Event::read(events, EventIndex(i));
        if normalize_identifier::same_identity(label, signature::part(text, e.from.0, e.to.0)) {
            return true;
        }
        k += 1;
    }
    false
}

// What an event is to an element in which so many are open: names 0 to 4 are not counted.
#[tactic(auto, unfolding(crate::specs::Labels::turn_of))]
fn turned(e: Event, depth: usize, n: u8, at: usize) -> Turn
    requires { depth < 0xFFFF_FFFF_FFFF_FFFF }
    ensures { result ≡ turn_of n at depth e }
{
    if e.name <= Event::BLANK_LINE_ENDING {
        return Turn::On(depth);
    }
    if e.kind == Event::ENTER {
        return Turn::On(depth + 1);
    }
    if depth == 0 {
        return Turn::Out;
    }
    if depth == at && e.name == n {
        return Turn::Own(e.from.0, e.to.0);
    }
    Turn::On(depth - 1)
}

// The slice of an element's own part n, which stands so deep in it. The events behind the element's enter start at `from`.
fn own_part(events: &[u8], from: usize, n: u8, at: usize) -> Option<(usize, usize)>
    ensures { result ≡ own_part n at 0 (drop from (events_of events.now)) }
{
    let mut depth: usize = 0;
    for i in from..event::count(events) {
        match turned(Event::read(events, EventIndex(i)), depth, n, at) {
            Turn::On(d) => depth = d,
            Turn::Own(a, b) => return Some((a, b)),
            Turn::Out => return None,
        }
    }
    None
}

// The slice that is sought for the element whose events start at `from`.
#[tactic(auto, unfolding(crate::specs::Labels::sought_of))]
fn sought(events: &[u8], from: usize) -> Option<(usize, usize)>
    ensures { result ≡ sought_of (drop from (events_of events.now)) }
{
    if own_part(events, from, Event::RESOURCE, 1).is_some() {
        return None;
    }
    own_part(events, from, Event::REFERENCE_STRING, 1).or_else(|| own_part(
        events,
        from,
        Event::LABEL_TEXT,
        2,
    ))
}

#[tactic(auto, unfolding(crate::specs::Labels::is_defined))]
fn is_defined(
    text: &[u8],
    events: &[u8],
    n: u8,
    signatures: &[usize],
    p: Option<(usize, usize)>,
) -> bool
    requires { Signed text.now events.now n signatures.now }
    ensures { result ≡ is_defined text.now (identities n text.now (events_of events.now)) p }
{
    match p {
        Some((from, to)) => has_label(text, events, n, signatures, signature::part(text, from, to)),
        None => true,
    }
}

// A link or an image.
fn is_medium(name: u8) -> bool
    ensures { result ≡ one_of (45 ∷ 46 ∷ []) name }
{
    matches!(name, Event::LINK | Event::IMAGE)
}

// Whether the event at an index is no undefined link, image or call.
#[tactic(auto, unfolding(crate::specs::Labels::label_holds))]
fn holds(text: &[u8], events: &[u8], definitions: &[usize], footnotes: &[usize], i: usize) -> bool
    requires { (i < count_of events.now) × (Signed text.now events.now 54 definitions.now) × (Signed text.now events.now 65 footnotes.now) }
    ensures { result ≡ label_holds text.now (events_of events.now) (event_at events.now i) (drop (i + 1) (events_of events.now)) }
{
    if event::kind_at(events, EventIndex(i)) != Event::ENTER {
        return true;
    }
    let name = event::name_at(events, EventIndex(i));
    if is_medium(name) {
        return is_defined(
            text,
            events,
            Event::DEFINITION_LABEL_STRING,
            definitions,
            sought(events, i + 1),
        );
    }
    if name == Event::GFM_FOOTNOTE_CALL {
        return is_defined(
            text,
            events,
            Event::GFM_FOOTNOTE_DEFINITION_LABEL_STRING,
            footnotes,
            sought(events, i + 1),
        );
    }
    true
}

// Whether an element whose events start at `from` seeks a label.
fn seeks(events: &[u8], from: usize) -> bool
    ensures { Seeks (drop from (events_of events.now)) result }
{
    sought(events, from).is_some()
}

// A bit for each name below 64, the lowest for 0, of a link, an image or a call.
const USES: u64 = 0x4000_6000_0000_0000;

// Whether a name is known to be none of theirs: most are none.
fn is_other(name: u8) -> bool
    ensures { Other name result }
{
    USES >> (name & 63) & 1 == 0
}

// Whether the event at an index is the enter of a link or an image that seeks a label, or of a call.
fn is_use(events: &[u8], i: usize) -> bool
    requires { i < count_of events.now }
    ensures { IsUse events.now i result }
{
    let name = event::name_at(events, EventIndex(i));
    if is_other(name) {
        return false;
    }
    let kind = event::kind_at(events, EventIndex(i));
    if kind != Event::ENTER {
        return false;
    }
    if is_medium(name) {
        return seeks(events, i + 1);
    }
    name == Event::GFM_FOOTNOTE_CALL
}

// The first enter that does not hold: none before `from` does not, and the one there is a use, so that it is not asked again.
fn first(
    text: &[u8],
    events: &[u8],
    definitions: &[usize],
    footnotes: &[usize],
    from: usize,
) -> Option<usize>
    requires { (Signed text.now events.now 54 definitions.now) × (Signed text.now events.now 65 footnotes.now) × (FirstFrom text.now events.now from) }
    ensures { result ≡ undefined_of text.now events.now }
{
    for i in from..event::count(events) {
        if i != from && !is_use(events, i) {
            continue;
        }
        if !holds(text, events, definitions, footnotes, i) {
            return Some(i);
        }
    }
    None
}

// Room for as many signatures as 6 lets labels through: those of further ones are not held.
fn check_uses(text: &[u8], events: &[u8], from: usize) -> Option<usize>
    requires { FirstFrom text.now events.now from }
    ensures { result ≡ undefined_of text.now events.now }
{
    let mut definitions = [0usize; 256];
    let mut footnotes = [0usize; 128];
    sign(text, events, &mut definitions, &mut footnotes);
    first(text, events, &definitions, &footnotes, from)
}

// The first link, image or call, by its enter, that has no definition.
pub fn check_labels(text: &[u8], events: &[u8]) -> Option<usize>
    ensures { result ≡ undefined_of text.now events.now }
{
    // most seek no label: they have a resource
    for i in 0..event::count(events) {
        if is_use(events, i) {
            return check_uses(text, events, i);
        }
    }
    None
}
