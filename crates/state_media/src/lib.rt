// Open links, images, calls and definitions. Of the newest it is known where it leads, in places of the text, of the held bytes or of the definitions; of the others
// only whether they are images. A setext heading's text is held there too, while it waits for its underline.
#![tactic(auto)]

ghost use Rattle.std.specs.Prelude.{true, ◌≡◌};
ghost use Rattle.machine.specs.Media as M;
ghost use Rattle.state_media.specs.Links.{no_media, Opens, Closes, IsImage, AnyOlderImage, Identifies, Empties, Leads, Stores, Holds, Releases};
ghost use Rattle.state_media.specs.Private.{bare_media, length_of, HeldBehind};

use event::BytePlace;
use packed::Tight;

// A piece of the held bytes.
#[derive(Clone, Copy)]
pub struct Piece {
    pub place: usize,
    pub length: usize,
}

// A slice of the note's text.
#[derive(Clone, Copy)]
pub struct Span {
    pub from: BytePlace,
    pub to: BytePlace,
}

// Its own, that of the definition at an index, or none: our own enum, since it has three answers.
#[derive(Clone, Copy)]
pub enum Destination {
    Nowhere,
    Own(Piece),
    Defined(usize),
}

#[derive(Clone, Copy)]
pub struct Media {
    pub label_id: Option<Span>,
    pub label: Option<Piece>,
    pub reference_id: Option<Span>,
    pub destination: Destination,
    pub title: Option<Piece>,
}

#[derive(Clone, Copy)]
pub struct Links {
    // which of the open ones are images
    pub images: Tight,
    // what is known of the newest
    pub media: Media,
    // behind the held bytes
    pub end: usize,
    pub setext: Option<Piece>,
}

// Before the first event: nothing is open and nothing is held.
pub fn new() -> Links
    ensures { result ≡ no_media }
{
    let images = Tight { bits: 0, count: 0 };
    let media = bare();
    Links {
        images,
        media,
        end: 0,
        setext: None,
    }
}

fn bare() -> Media
    ensures { result ≡ bare_media }
{
    Media {
        label_id: None,
        label: None,
        reference_id: None,
        destination: Destination::Nowhere,
        title: None,
    }
}

fn length_of(t: Option<Piece>) -> usize
    ensures { result ≡ length_of t }
{
    t.map_or(0, |p| p.length)
}

// ---- opened and closed

// Opens one, in one of which nothing is known.
pub fn open_media(l: Links, image: bool) -> Links
    ensures { Opens image l result }
{
    let mut r = l;
    r.images = l.images.more(image);
    r.media = bare();
    r
}

// Closes the newest. What it held goes.
pub fn close_media(l: Links) -> Links
    ensures { Closes l result }
{
    let mut r = l;
    r.images = l.images.fewer();
    r.media = bare();
    let setext = l.setext;
    r.end = length_of(setext);
    r
}

pub fn is_image(l: Links) -> bool
    ensures { IsImage l result }
{
    l.images.newest()
}

// Whether an image is open around the newest one.
pub fn in_image(l: Links) -> bool
    ensures { AnyOlderImage l result }
{
    let t = l.images.fewer();
    t.any()
}

// ---- what is known of the newest

pub fn identify_label(l: Links, p: Span) -> Links
    ensures { Identifies M.label_id p l result }
{
    let mut r = l;
    r.media.label_id = Some(p);
    r
}

pub fn identify_reference(l: Links, p: Span) -> Links
    ensures { Identifies M.reference_id p l result }
{
    let mut r = l;
    r.media.reference_id = Some(p);
    r
}

// A resource that says nothing leads to its own page.
pub fn empty_destination(l: Links) -> Links
    ensures { Empties l result }
{
    let mut r = l;
    let p = Piece {
        place: 0,
        length: 0,
    };
    r.media.destination = Destination::Own(p);
    r
}

// To the definition at an index.
pub fn lead_to(l: Links, k: usize) -> Links
    ensures { Leads k l result }
{
    let mut r = l;
    r.media.destination = Destination::Defined(k);
    r
}

// ---- what was captured: n of the work bytes, from a place on, are held

// Behind all that is held. Their piece comes out beside the links.
fn hold_behind(l: Links, work: &mut [u8], from: usize, n: usize) -> (Links, Piece)
    ensures { HeldBehind from n l work.old result.0 result.1 work.new }
{
    let mut r = l;
    r.end = regions::carry(work, from, n, regions::HELD_AT, l.end);
    let p = Piece {
        place: l.end,
        length: n,
    };
    (r, p)
}

pub fn store_label(l: Links, work: &mut [u8], from: usize, n: usize) -> Links
    ensures { Stores M.label from n l work.old result work.new }
{
    let (mut r, p) = hold_behind(l, work, from, n);
    r.media.label = Some(p);
    r
}

pub fn store_destination(l: Links, work: &mut [u8], from: usize, n: usize) -> Links
    ensures { Stores M.destination from n l work.old result work.new }
{
    let (mut r, p) = hold_behind(l, work, from, n);
    r.media.destination = Destination::Own(p);
    r
}

pub fn store_title(l: Links, work: &mut [u8], from: usize, n: usize) -> Links
    ensures { Stores M.title from n l work.old result work.new }
{
    let (mut r, p) = hold_behind(l, work, from, n);
    r.media.title = Some(p);
    r
}

// As a setext heading's text.
pub fn hold(l: Links, work: &mut [u8], from: usize, n: usize) -> Links
    ensures { Holds from n l work.old result work.new }
{
    let mut r = l;
    let p = Piece {
        place: 0,
        length: n,
    };
    r.end = regions::carry(work, from, n, regions::HELD_AT, 0);
    r.setext = Some(p);
    r
}

// The heading's text waits no more.
pub fn release(l: Links) -> Links
    ensures { Releases l result }
{
    let mut r = l;
    r.end = 0;
    r.setext = None;
    r
}
