// An event that concerns media, definitions, footnotes or setext headings goes to its handler by its name; elsewhere the state is left as it is.
#![tactic(auto)]

ghost use Rattle.std.specs.Prelude.{◌≡◌};
ghost use Rattle.dispatch_media.specs.Enters.{enters_whole, Enters};
ghost use Rattle.state_kept.specs.Kept.{tables};
ghost use Rattle.dispatch_media.specs.Exits.{exits_whole, ExitsWhole, ExitsSetext, ExitsMedia, ExitsFootnote};

use event::Event;
use machine::Options;
use state_whole::Whole;

// ---- enters

// Whether a name is of this crate.
pub fn enters_whole(name: u8) -> bool
    ensures { result ≡ enters_whole name }
{
    let medium = (name == Event::LINK) | (name == Event::IMAGE);
    let part = (name == Event::RESOURCE) | (name == Event::DEFINITION);
    (medium | part) | (name == Event::GFM_FOOTNOTE_CALL)
}

pub fn on_enter(b: Whole, e: Event, starts: &mut [usize]) -> Whole
    ensures { Enters e b starts.old result starts.new }
{
    let name = e.name;
    match name {
        Event::LINK => on_link::on_enter_link(b),
        Event::IMAGE => on_link::on_enter_image(b),
        Event::RESOURCE => on_link::on_enter_resource(b, starts),
        Event::DEFINITION => on_definition::on_enter_definition(b, starts),
        Event::GFM_FOOTNOTE_CALL => on_footnote::on_enter_gfm_footnote_call(b),
        _ => b,
    }
}

// ---- exits

// Whether a name is of this crate.
pub fn exits_whole(name: u8) -> bool
    ensures { result ≡ exits_whole name }
{
    let setext = (name == Event::HEADING_SETEXT_TEXT)
        | (name == Event::HEADING_SETEXT_UNDERLINE_SEQUENCE);
    let inline = (Event::AUTOLINK_PROTOCOL < name) & (name < Event::GFM_TABLE);
    let media = inline & !(name == Event::RESOURCE);
    let call = (name == Event::GFM_FOOTNOTE_CALL) | (name == Event::GFM_FOOTNOTE_DEFINITION);
    let footnote = call | (name == Event::GFM_FOOTNOTE_DEFINITION_LABEL_STRING);
    (setext | media) | footnote
}

// Setext headings.
fn exit_setext(
    b: Whole,
    text: &[u8],
    e: Event,
    work: &mut [u8],
    starts: &[usize],
    out: &mut [u8],
) -> Whole
    ensures { ExitsSetext text.now e b work.old starts.now out.old result work.new out.new }
{
    let name = e.name;
    match name {
        Event::HEADING_SETEXT_TEXT => on_setext::on_exit_heading_setext_text(b, work, starts),
        Event::HEADING_SETEXT_UNDERLINE_SEQUENCE => {
            on_setext::on_exit_heading_setext_underline_sequence(b, text, e, work, out)
        }
        _ => b,
    }
}

// Links, images and definitions.
fn exit_media(
    b: Whole,
    text: &[u8],
    e: Event,
    options: Options,
    work: &mut [u8],
    starts: &[usize],
    out: &mut [u8],
    definitions: &mut [usize],
) -> Whole
    ensures { ExitsMedia text.now e options b work.old starts.now out.old definitions.old result work.new out.new definitions.new }
{
    let name = e.name;
    match name {
        Event::LINK => on_media::on_exit_media(b, text, options, work, out, definitions),
        Event::IMAGE => on_media::on_exit_media(b, text, options, work, out, definitions),
        Event::LABEL => on_link::on_exit_label(b, work, starts),
        Event::LABEL_TEXT => on_link::on_exit_label_text(b, e),
        Event::RESOURCE_DESTINATION_STRING => {
            on_link::on_exit_resource_destination_string(b, work, starts)
        }
        Event::RESOURCE_TITLE_STRING => on_link::on_exit_resource_title_string(b, work, starts),
        Event::REFERENCE_STRING => on_link::on_exit_reference_string(b, e, starts),
        Event::DEFINITION => on_definition::on_exit_definition(b, text, work, starts, definitions),
        Event::DEFINITION_LABEL_STRING => on_definition::on_exit_definition_label_string(
            b, e, starts,
        ),
        Event::DEFINITION_DESTINATION_STRING => {
            on_definition::on_exit_definition_destination_string(b, work, starts)
        }
        Event::DEFINITION_TITLE_STRING => on_definition::on_exit_definition_title_string(
            b, work, starts,
        ),
        _ => b,
    }
}

// Calls and footnote definitions.
fn exit_footnote(
    b: Whole,
    text: &[u8],
    e: Event,
    work: &mut [u8],
    starts: &[usize],
    out: &mut [u8],
    footnotes: &mut [usize],
    calls: &mut [usize],
    labels: &mut [usize],
) -> Whole
    ensures { ExitsFootnote text.now e b work.old starts.now out.old footnotes.old calls.old labels.old result work.new out.new footnotes.new calls.new labels.new }
{
    let name = e.name;
    match name {
        Event::GFM_FOOTNOTE_CALL => {
            on_footnote::on_exit_gfm_footnote_call(b, text, work, out, calls)
        }
        Event::GFM_FOOTNOTE_DEFINITION => {
            on_footnote::on_exit_gfm_footnote_definition(b, text, work, starts, footnotes, labels)
        }
        Event::GFM_FOOTNOTE_DEFINITION_LABEL_STRING => {
            on_footnote::on_exit_gfm_footnote_definition_label_string(b, e, labels)
        }
        _ => b,
    }
}

pub fn on_exit(
    b: Whole,
    text: &[u8],
    e: Event,
    options: Options,
    work: &mut [u8],
    starts: &[usize],
    out: &mut [u8],
    definitions: &mut [usize],
    footnotes: &mut [usize],
    calls: &mut [usize],
    labels: &mut [usize],
) -> Whole
    ensures { ExitsWhole text.now e options b work.old starts.now out.old (tables definitions.old footnotes.old calls.old labels.old) result work.new out.new (tables definitions.new footnotes.new calls.new labels.new) }
{
    if e.name < Event::LINK {
        return exit_setext(b, text, e, work, starts, out);
    }
    if e.name < Event::GFM_TABLE {
        return exit_media(b, text, e, options, work, starts, out, definitions);
    }
    exit_footnote(b, text, e, work, starts, out, footnotes, calls, labels)
}
