// The end of a link or an image, by its Rust name: where it leads, its label and its title are written.
#![tactic(auto)]

ghost use Rattle.std.specs.Prelude.{◌≤◌};
ghost use Rattle.regions.specs.Sizes.{kept_at};
ghost use Rattle.machine.specs.Turn.{url_of};
ghost use Rattle.machine.specs.Media.{label, destination, title, title_text};
ghost use Rattle.machine.specs.Words.{show, when, unless, put, tag, leave_image};
ghost use Rattle.state_context.specs.Rel.{Any};
ghost use Rattle.state_whole.specs.Whole.{Held, OnPage, Always, Unlent};
ghost use Rattle.write_held.specs.Show.{as_is};
ghost use Rattle.on_definition.specs.Definitions.{Known};
ghost use Rattle.on_media.specs.Parts.{Chooses, OnShown, WritesText};
ghost use Rattle.on_media.specs.Private.{WritesPiece, ShowsOwnTitle, ShowsKeptTitle};
ghost use Rattle.machine.specs.Set.{alt};
ghost use Rattle.machine.specs.Test.{is, is_image};
ghost use Rattle.machine.specs.Command.{◌▸◌, whether};
ghost use Rattle.machine.specs.OnMedia.{on_exit_media};
ghost use Rattle.on_media.specs.Media.{ReadsBy, OnMedia};

use machine::Options;
use state_media::Destination;
use state_whole::Whole;

// ---- the parts, written

// ---- writing

// A text of ours.
pub fn write_text(b: Whole, work: &mut [u8], out: &mut [u8], s: &[u8]) -> Whole
    ensures { WritesText s.now b work.old out.old result work.new out.new }
{
    let mut r = b;
    let mut c = b.context;
    c.buffers = write_held::push_text(b.context.buffers, work, out, s);
    r.context = c;
    r
}

fn write_piece(
    b: Whole,
    work: &mut [u8],
    out: &mut [u8],
    base: usize,
    place: usize,
    n: usize,
) -> Whole
    requires { base ≤ kept_at }
    ensures { WritesPiece as_is base place n b work.old out.old result work.new out.new }
{
    let mut r = b;
    let mut c = b.context;
    c.buffers = write_held::push_piece(b.context.buffers, work, out, base, place, n);
    r.context = c;
    r
}

fn write_url(
    b: Whole,
    work: &mut [u8],
    out: &mut [u8],
    base: usize,
    place: usize,
    n: usize,
    options: Options,
    image: bool,
) -> Whole
    requires { base ≤ kept_at }
    ensures { WritesPiece (url_of options image) base place n b work.old out.old result work.new out.new }
{
    let mut r = b;
    let mut c = b.context;
    c.buffers = write_held::push_url_piece(
        b.context.buffers,
        work,
        out,
        base,
        place,
        n,
        options,
        image,
    );
    r.context = c;
    r
}

fn write_title(
    b: Whole,
    work: &mut [u8],
    out: &mut [u8],
    base: usize,
    place: usize,
    n: usize,
) -> Whole
    requires { base ≤ kept_at }
    ensures { WritesPiece title_text base place n b work.old out.old result work.new out.new }
{
    let mut r = b;
    let mut c = b.context;
    let named = write_held::push_text(b.context.buffers, work, out, b" title=\"");
    let shown = write_held::push_piece(named, work, out, base, place, n);
    c.buffers = write_held::push_text(shown, work, out, b"\"");
    r.context = c;
    r
}

// ---- the parts of the newest medium

pub fn show_label(b: Whole, work: &mut [u8], out: &mut [u8]) -> Whole
    ensures { OnPage Held Any (show label) b work.old out.old result work.new out.new }
{
    let l = b.links;
    let m = l.media;
    let x = m.label;
    match x {
        None => b,
        Some(p) => write_piece(b, work, out, regions::HELD_AT, p.place, p.length),
    }
}

pub fn show_destination(
    b: Whole,
    options: Options,
    work: &mut [u8],
    out: &mut [u8],
    definitions: &[usize],
) -> Whole
    ensures { OnShown Known (Chooses options) (show destination) b work.old out.old definitions.now result work.new out.new }
{
    let l = b.links;
    let image = state_media::is_image(l);
    let m = l.media;
    let d = m.destination;
    match d {
        Destination::Nowhere => b,
        Destination::Own(p) => write_url(
            b,
            work,
            out,
            regions::HELD_AT,
            p.place,
            p.length,
            options,
            image,
        ),
        Destination::Defined(k) => {
            let place = state_kept::definition_place(definitions, k);
            let n = state_kept::definition_length(definitions, k);
            write_url(b, work, out, regions::KEPT_AT, place, n, options, image)
        }
    }
}

fn show_own_title(b: Whole, work: &mut [u8], out: &mut [u8]) -> Whole
    ensures { ShowsOwnTitle b work.old out.old result work.new out.new }
{
    let l = b.links;
    let m = l.media;
    let x = m.title;
    match x {
        None => b,
        Some(p) => write_title(b, work, out, regions::HELD_AT, p.place, p.length),
    }
}

// It stands behind the definition's destination.
fn show_kept_title(
    b: Whole,
    k: usize,
    work: &mut [u8],
    out: &mut [u8],
    definitions: &[usize],
) -> Whole
    ensures { ShowsKeptTitle k b work.old out.old definitions.now result work.new out.new }
{
    let word = state_kept::definition_title(definitions, k);
    if word == 0 {
        return b;
    }
    let place = state_kept::definition_place(definitions, k);
    let n = state_kept::definition_length(definitions, k);
    let from = on_definition::at_most(place);
    let skipped = on_definition::at_most(n);
    write_title(b, work, out, regions::KEPT_AT, from + skipped, word - 1)
}

pub fn show_title(b: Whole, work: &mut [u8], out: &mut [u8], definitions: &[usize]) -> Whole
    ensures { OnShown Known Any (show title) b work.old out.old definitions.now result work.new out.new }
{
    let l = b.links;
    let m = l.media;
    let d = m.destination;
    match d {
        Destination::Nowhere => show_own_title(b, work, out),
        Destination::Own(_) => show_own_title(b, work, out),
        Destination::Defined(k) => show_kept_title(b, k, work, out, definitions),
    }
}

// ---- the end

// Whether this is still in the text of an image.
fn leave_image(b: Whole) -> Whole
    ensures { Unlent Always Any leave_image b result }
{
    let mut r = b;
    let x = state_media::in_image(b.links);
    r.context = state_context::set_alt(b.context, x);
    r
}

// ---- texts that an image has, or has another of

fn put_name(b: Whole, work: &mut [u8], out: &mut [u8]) -> Whole
    ensures { OnPage Always Any (whether is_image (put "<img src=\"") (put "<a href=\"")) b work.old out.old result work.new out.new }
{
    if state_media::is_image(b.links) {
        return write_text(b, work, out, b"<img src=\"");
    }
    write_text(b, work, out, b"<a href=\"")
}

fn put_alt(b: Whole, work: &mut [u8], out: &mut [u8]) -> Whole
    ensures { OnPage Always Any (when is_image (put "\" alt=\"")) b work.old out.old result work.new out.new }
{
    if state_media::is_image(b.links) {
        return write_text(b, work, out, b"\" alt=\"");
    }
    b
}

fn put_slash(b: Whole, work: &mut [u8], out: &mut [u8]) -> Whole
    ensures { OnPage Always Any (when is_image (put " /")) b work.old out.old result work.new out.new }
{
    if state_media::is_image(b.links) {
        return write_text(b, work, out, b" /");
    }
    b
}

fn put_end_tag(b: Whole, work: &mut [u8], out: &mut [u8]) -> Whole
    ensures { OnPage Always Any (tag "</a>") b work.old out.old result work.new out.new }
{
    if state_context::is_alt(b.context) {
        return b;
    }
    write_text(b, work, out, b"</a>")
}

// ---- the end of one: within an image, the label alone

fn push_start(
    b: Whole,
    options: Options,
    work: &mut [u8],
    out: &mut [u8],
    definitions: &[usize],
) -> Whole
    ensures { OnShown Known (Chooses options) (unless (is alt) (whether is_image (put "<img src=\"") (put "<a href=\"") ▸ show destination ▸ when is_image (put "\" alt=\""))) b work.old out.old definitions.now result work.new out.new }
{
    if state_context::is_alt(b.context) {
        return b;
    }
    let named = put_name(b, work, out);
    let shown = show_destination(named, options, work, out, definitions);
    put_alt(shown, work, out)
}

fn push_label(b: Whole, work: &mut [u8], out: &mut [u8]) -> Whole
    ensures { OnPage Held Any (when is_image (show label)) b work.old out.old result work.new out.new }
{
    if state_media::is_image(b.links) {
        return show_label(b, work, out);
    }
    b
}

fn push_end(b: Whole, work: &mut [u8], out: &mut [u8], definitions: &[usize]) -> Whole
    ensures { OnShown Known Any (unless (is alt) (put "\"" ▸ show title ▸ when is_image (put " /") ▸ put ">")) b work.old out.old definitions.now result work.new out.new }
{
    if state_context::is_alt(b.context) {
        return b;
    }
    let quoted = write_text(b, work, out, b"\"");
    let titled = show_title(quoted, work, out, definitions);
    let slashed = put_slash(titled, work, out);
    write_text(slashed, work, out, b">")
}

fn push_text(b: Whole, work: &mut [u8], out: &mut [u8]) -> Whole
    ensures { OnPage Held Any (unless is_image (show label ▸ tag "</a>")) b work.old out.old result work.new out.new }
{
    if state_media::is_image(b.links) {
        return b;
    }
    let shown = show_label(b, work, out);
    put_end_tag(shown, work, out)
}

pub fn on_exit_media(
    b: Whole,
    text: &[u8],
    options: Options,
    work: &mut [u8],
    out: &mut [u8],
    definitions: &[usize],
) -> Whole
    ensures { OnMedia Known (ReadsBy text.now options) on_exit_media b text.now work.old out.old definitions.now result work.new out.new }
{
    let left = leave_image(b);
    let led = on_definition::seek_definition(left, text, definitions);
    let started = push_start(led, options, work, out, definitions);
    let labelled = push_label(started, work, out);
    let ended = push_end(labelled, work, out, definitions);
    let shown = push_text(ended, work, out);
    let mut r = shown;
    r.links = state_media::close_media(shown.links);
    r
}
