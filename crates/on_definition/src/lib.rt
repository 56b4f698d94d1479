// Handlers of definitions, by their Rust names; and the search for one.
#![tactic(auto)]

ghost use Rattle.std.specs.Prelude.{◌≡◌, min, ◌+◌, ◌-◌, false};
ghost use Rattle.regions.specs.Sizes.{region_size};
ghost use Rattle.machine.specs.Words.{seek_definition};
ghost use Rattle.machine.specs.OnDefinition.{on_exit_definition, on_enter_definition, on_exit_definition_label_string, on_exit_definition_destination_string, on_exit_definition_title_string};
ghost use Rattle.state_whole.specs.Whole.{Roomy, Always, FromStarts, OnStarts, OnWork};
ghost use Rattle.on_definition.specs.Definitions.{Known, FromDefinitions, OnDefinitions};
ghost use Rattle.on_definition.specs.Private.{sought_of, own_piece, text_piece, word_of, SeeksAt, SeeksLabel, KeepsAt, KeepsNewest};
ghost use Rattle.state_context.specs.Rel.{Any};
ghost use Rattle.on_link.specs.Links.{Handled};

use event::Event;
use state_media::{Destination, Media, Piece, Span};
use state_whole::Whole;

pub fn on_enter_definition(b: Whole, starts: &mut [usize]) -> Whole
    ensures { OnStarts Always Any on_enter_definition b starts.old result starts.new }
{
    let mut r = b;
    r.context = state_context::open(b.context, starts);
    r.links = state_media::open_media(b.links, false);
    r
}

pub fn on_exit_definition_label_string(b: Whole, e: Event, starts: &[usize]) -> Whole
    ensures { FromStarts Roomy (Handled e) on_exit_definition_label_string b starts.now result }
{
    on_link::identify_reference(b, e, starts)
}

pub fn on_exit_definition_destination_string(b: Whole, work: &mut [u8], starts: &[usize]) -> Whole
    ensures { OnWork Roomy Any on_exit_definition_destination_string b work.old starts.now result work.new }
{
    on_link::store_destination(b, work, starts)
}

pub fn on_exit_definition_title_string(b: Whole, work: &mut [u8], starts: &[usize]) -> Whole
    ensures { OnWork Roomy Any on_exit_definition_title_string b work.old starts.now result work.new }
{
    on_link::store_title(b, work, starts)
}

// ---- sought

// The reference string, else the label text.
fn sought_label(m: Media) -> Option<Span>
    ensures { result ≡ sought_of m }
{
    m.reference_id.or(m.label_id)
}

fn seek_at(b: Whole, p: Span, text: &[u8], definitions: &[usize]) -> Whole
    ensures { SeeksAt p b text.now definitions.now result }
{
    let from = p.from.0;
    let to = p.to.0;
    let found = state_kept::find_definition(b.kept, text, from, to, definitions);
    match found {
        None => b,
        Some(k) => {
            let mut r = b;
            r.links = state_media::lead_to(b.links, k);
            r
        }
    }
}

fn seek_label(b: Whole, text: &[u8], definitions: &[usize]) -> Whole
    ensures { SeeksLabel b text.now definitions.now result }
{
    let l = b.links;
    let label = sought_label(l.media);
    match label {
        None => b,
        Some(p) => seek_at(b, p, text, definitions),
    }
}

// A link without a destination of its own leads to the definition of its label.
pub fn seek_definition(b: Whole, text: &[u8], definitions: &[usize]) -> Whole
    ensures { FromDefinitions Known seek_definition b text.now definitions.now result }
{
    let l = b.links;
    let m = l.media;
    let destination = m.destination;
    match destination {
        Destination::Nowhere => seek_label(b, text, definitions),
        Destination::Own(_) => b,
        Destination::Defined(_) => b,
    }
}

// ---- kept

fn own_piece(d: Destination) -> Piece
    ensures { result ≡ own_piece d }
{
    let none = Piece {
        place: 0,
        length: 0,
    };
    match d {
        Destination::Nowhere => none,
        Destination::Own(p) => p,
        Destination::Defined(_) => none,
    }
}

fn text_piece(t: Option<Piece>) -> Piece
    ensures { result ≡ text_piece t }
{
    let none = Piece {
        place: 0,
        length: 0,
    };
    t.unwrap_or(none)
}

// A place or length within a region.
pub fn at_most(n: usize) -> usize
    ensures { result ≡ min n region_size }
{
    n.min(regions::SIZE)
}

// 0 without a title, else one more than its length.
fn word_of(t: Option<Piece>) -> usize
    ensures { result ≡ word_of t }
{
    t.map_or(0, |p| at_most(p.length) + 1)
}

fn keep_at(b: Whole, p: Span, text: &[u8], work: &mut [u8], definitions: &mut [usize]) -> Whole
    ensures { KeepsAt p b text.now work.old definitions.old result work.new definitions.new }
{
    let l = b.links;
    let m = l.media;
    let d = m.destination;
    let t = m.title;
    let own = own_piece(d);
    let title = text_piece(t);
    let word = word_of(t);
    let place = at_most(own.place);
    let title_place = at_most(title.place);
    let mut r = b;
    r.kept = state_kept::keep_definition(
        b.kept,
        text,
        p.from.0,
        p.to.0,
        regions::HELD_AT + place,
        own.length,
        regions::HELD_AT + title_place,
        word,
        work,
        definitions,
    );
    r.links = state_media::close_media(b.links);
    r
}

fn keep_newest(b: Whole, text: &[u8], work: &mut [u8], definitions: &mut [usize]) -> Whole
    ensures { KeepsNewest b text.now work.old definitions.old result work.new definitions.new }
{
    let l = b.links;
    let m = l.media;
    let label = m.reference_id;
    match label {
        None => b,
        Some(p) => keep_at(b, p, text, work, definitions),
    }
}

pub fn on_exit_definition(
    b: Whole,
    text: &[u8],
    work: &mut [u8],
    starts: &[usize],
    definitions: &mut [usize],
) -> Whole
    ensures { OnDefinitions Roomy on_exit_definition b text.now work.old starts.now definitions.old result work.new definitions.new }
{
    let mut r = b;
    r.context = state_context::drop(b.context, starts);
    keep_newest(r, text, work, definitions)
}
