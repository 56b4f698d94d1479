// The library for C and whatever calls C: each public call of the page under one prefix, its answer in numbers (include/notepage.h).
#![tactic(auto)]

ghost use Rattle.std.specs.Prelude.{ℕ, ◌<◌, List, ◌≡◌};
ghost use Rattle.encode.specs.Encode.{encode_of};
ghost use Rattle.sanitize_uri.specs.Url.{sanitize_of};
ghost use Rattle.sanitize_uri.specs.Protocols.{link_schemes, image_schemes, sanitize_with_protocols_of};
ghost use Rattle.normalize_identifier.specs.Identity.{identity_of};
ghost use Rattle.bundle_read.specs.Read.{HasRead};
ghost use Rattle.bundle_writer.specs.Packed.{HasPacked};
ghost use Rattle.bundle_parts.specs.Feed.{stand_of, start_of, feed_of, end_of};
ghost use Rattle.check_list.specs.Checked.{Checks};
ghost use Rattle.call_build.specs.Build.{Builds};
ghost use Rattle.call_text_answer.specs.Written.{Wrote};
ghost use Rattle.call_normalize.specs.Normalized.{HasNormalized};
ghost use Rattle.exports.specs.Told.{Told, of_written, of_normalized, of_listed, of_checked, of_built, of_packed, of_read, of_progress};
ghost use Rattle.exports.specs.Given.{has_bit, ending_of, names_of, options_of, escaping_in};
ghost use Rattle.call_links_answer.specs.Listed.{Lists};
ghost use Rattle.exports.specs.Reader.{refusal_of, answer_of, progress_of, known_of, reader_of};

use bundle_block::Refusal;
use bundle_known::Known;
use bundle_parts::{Reader, State};
use bundle_read::Contents;
use bundle_writer::WriteRefusal;
use call_normalize::Url;
use character_reference::Names;
use encode_byte::Escaping;
use machine::{Ending, Options};

// 10,000 times the first number, 100 times the second, and the third.
const VERSION: u32 = 200;

// The number that says that more is wanted.
const MORE: u32 = 255;

// An answer's number (RULES R7.1), and the length or the refusal's place.
#[repr(C)]
#[derive(Clone, Copy)]
pub struct NotepageAnswer {
    pub number: u32,
    pub value: usize,
}

// The number, the URL's length or the refusal's place, and how many characters were visited.
#[repr(C)]
#[derive(Clone, Copy)]
pub struct NotepageNormalized {
    pub number: u32,
    pub value: usize,
    pub visits: usize,
}

// The number; the text's length or the refusal's place, the events' length in bytes, and the edition.
#[repr(C)]
#[derive(Clone, Copy)]
pub struct NotepageRead {
    pub number: u32,
    pub edition: u32,
    pub value: usize,
    pub events: usize,
}

// The state of a reader in parts between two calls. In one before the first part every number is zero.
#[repr(C)]
#[derive(Clone, Copy)]
pub struct NotepageReader {
    pub begun: u32,
    pub edition: u32,
    pub text: u32,
    pub events: u32,
    pub text_came: u32,
    pub events_came: u32,
    pub over: u32,
    pub done: u32,
    pub held: usize,
    pub answer: NotepageRead,
    pub rest: [u8; 512],
}

#[unsafe(no_mangle)]
pub extern "C" fn notepage_version() -> u32
    ensures { result ≡ 200 }
{
    VERSION
}

// Whether a text and its events meet the rules: RULES R7, refusals 1 to 7.
#[unsafe(no_mangle)]
pub extern "C" fn notepage_check(text: &[u8], events: &[u8]) -> NotepageAnswer
    ensures { Told (Checks text.now events.now) of_checked result }
{
    let checked = page::check(text, events);
    tell_checked(checked)
}

// The page of a note with zeros behind it; or a refusal, with nothing in the output. Every work byte is zero afterwards.
#[unsafe(no_mangle)]
pub extern "C" fn notepage_build(
    text: &[u8],
    events: &[u8],
    options: u32,
    out: &mut [u8],
    work: &mut [u8],
) -> NotepageAnswer
    ensures { Told (Builds text.now events.now (options_of options) out.old work.old out.new work.new) of_built result }
{
    let built = page::build(text, events, options_of(options), out, work);
    tell_built(built)
}

// Reads the text and the events of a note bundle.
#[unsafe(no_mangle)]
pub extern "C" fn notepage_read_bundle(
    bundle: &[u8],
    text: &mut [u8],
    events: &mut [u8],
) -> NotepageRead
    ensures { Told (HasRead bundle.now text.old events.old text.new events.new) of_read result }
{
    let answer = page::read_bundle(bundle, text, events);
    tell_read(answer)
}

// Writes the note bundle of a text, events and an edition, with zeros behind it; or a refusal, with nothing in the output.
#[unsafe(no_mangle)]
pub extern "C" fn notepage_write_bundle(
    text: &[u8],
    events: &[u8],
    edition: u32,
    out: &mut [u8],
) -> NotepageAnswer
    ensures { Told (HasPacked text.now events.now edition out.old out.new) of_packed result }
{
    let packed = page::write_bundle(text, events, edition, out);
    tell_packed(packed)
}

// A reader for a note bundle that comes in parts, before the first of them.
#[unsafe(no_mangle)]
pub extern "C" fn notepage_bundle_reader() -> NotepageReader
    ensures { (t e : List ℕ) → stand_of (reader_of result) t e ≡ start_of t e }
{
    tell_reader(page::bundle_reader())
}

// The next part of a bundle, of any length.
#[unsafe(no_mangle)]
pub extern "C" fn notepage_feed_bundle(
    reader: NotepageReader,
    part: &[u8],
    text: &mut [u8],
    events: &mut [u8],
) -> NotepageReader
    ensures { stand_of (reader_of result) text.new events.new ≡ feed_of (stand_of (reader_of reader) text.old events.old) part.now }
{
    let fed = page::feed_bundle(reader_of(reader), part, text, events);
    tell_reader(fed)
}

// No part follows.
#[unsafe(no_mangle)]
pub extern "C" fn notepage_end_bundle(
    reader: NotepageReader,
    text: &mut [u8],
    events: &mut [u8],
) -> NotepageReader
    ensures { stand_of (reader_of result) text.new events.new ≡ end_of (stand_of (reader_of reader) text.old events.old) }
{
    let ended = page::end_bundle(reader_of(reader), text, events);
    tell_reader(ended)
}

// Whether more is wanted, or the answer.
#[unsafe(no_mangle)]
pub extern "C" fn notepage_bundle_so_far(reader: NotepageReader) -> NotepageRead
    ensures { result ≡ of_progress (reader_of reader).state.progress }
{
    let so_far = page::bundle_so_far(reader_of(reader));
    tell_progress(so_far)
}

// Escapes a text for HTML; without bit 0 of the options only NUL is replaced, with bit 3 too `'` is escaped.
#[unsafe(no_mangle)]
pub extern "C" fn notepage_escape(text: &[u8], options: u32, out: &mut [u8]) -> NotepageAnswer
    ensures { Told (Wrote text.now (encode_of (escaping_in options) text.now) out.old out.new) of_written result }
{
    let escaping = escaping_in(options);
    let written = page::escape(text, escaping, out);
    tell_written(written)
}

// Makes a URL safe for an attribute; with bit 3 of the options `'` is escaped.
#[unsafe(no_mangle)]
pub extern "C" fn notepage_sanitize(url: &[u8], options: u32, out: &mut [u8]) -> NotepageAnswer
    ensures { Told (Wrote url.now (sanitize_of (has_bit 8 options) url.now) out.old out.new) of_written result }
{
    let written = page::sanitize(url, has_bit(8, options), out);
    tell_written(written)
}

// The same for a link: a URL with another scheme than the six of RULES R11.5 becomes empty.
#[unsafe(no_mangle)]
pub extern "C" fn notepage_sanitize_link(url: &[u8], options: u32, out: &mut [u8]) -> NotepageAnswer
    ensures { Told (Wrote url.now (sanitize_with_protocols_of (has_bit 8 options) link_schemes url.now) out.old out.new) of_written result }
{
    let written = page::sanitize_link(url, has_bit(8, options), out);
    tell_written(written)
}

// The same for an image, whose schemes are http and https.
#[unsafe(no_mangle)]
pub extern "C" fn notepage_sanitize_image(
    url: &[u8],
    options: u32,
    out: &mut [u8],
) -> NotepageAnswer
    ensures { Told (Wrote url.now (sanitize_with_protocols_of (has_bit 8 options) image_schemes url.now) out.old out.new) of_written result }
{
    let written = page::sanitize_image(url, has_bit(8, options), out);
    tell_written(written)
}

// Percent-encodes a URL, and says how many characters it visited (RULES R11.7).
#[unsafe(no_mangle)]
pub extern "C" fn notepage_normalize(url: &[u8], out: &mut [u8]) -> NotepageNormalized
    ensures { Told (HasNormalized url.now out.old out.new) of_normalized result }
{
    let normalized = page::normalize(url, out);
    tell_normalized(normalized)
}

// A whole list of links: one text with the places where its URLs end, and for each the length and the bytes of `notepage_sanitize_link`.
#[unsafe(no_mangle)]
pub extern "C" fn notepage_sanitize_links(
    text: &[u8],
    ends: &[u32],
    options: u32,
    out: &mut [u8],
    lengths: &mut [u32],
) -> NotepageAnswer
    ensures { Told (Lists (has_bit 8 options) text.now ends.now out.old lengths.old out.new lengths.new) of_listed result }
{
    let listed = page::sanitize_links(text, ends, has_bit(8, options), out, lengths);
    tell_listed(listed)
}

// What a label is compared by.
#[unsafe(no_mangle)]
pub extern "C" fn notepage_identity(label: &[u8], out: &mut [u8]) -> NotepageAnswer
    ensures { Told (Wrote label.now (identity_of label.now) out.old out.new) of_written result }
{
    let written = page::identity(label, out);
    tell_written(written)
}

// ---- Answers. One function for each type: a trait over them would have an impl for each, and be no shorter.

fn tell_written(w: Result<usize, call_text_answer::Refusal>) -> NotepageAnswer
    ensures { result ≡ of_written w }
{
    NotepageAnswer {
        number: page::number(w),
        value: page::value(w),
    }
}

fn tell_normalized(n: Result<Url, call_text_answer::Refusal>) -> NotepageNormalized
    ensures { result ≡ of_normalized n }
{
    NotepageNormalized {
        number: call_normalize::number(n),
        value: call_normalize::value(n),
        visits: call_normalize::visits(n),
    }
}

fn tell_listed(r: Result<usize, call_links_answer::Refusal>) -> NotepageAnswer
    ensures { result ≡ of_listed r }
{
    NotepageAnswer {
        number: call_links_answer::number(r),
        value: call_links_answer::value(r),
    }
}

fn tell_checked(c: Result<(), check_list::Refusal>) -> NotepageAnswer
    ensures { result ≡ of_checked c }
{
    NotepageAnswer {
        number: check_list::number(c),
        value: check_list::place(c),
    }
}

fn tell_built(b: Result<usize, call_build_answer::Refusal>) -> NotepageAnswer
    ensures { result ≡ of_built b }
{
    NotepageAnswer {
        number: call_build_answer::number(b),
        value: call_build_answer::value(b),
    }
}

fn tell_packed(p: Result<usize, WriteRefusal>) -> NotepageAnswer
    ensures { result ≡ of_packed p }
{
    NotepageAnswer {
        number: bundle_writer::number(p),
        value: bundle_writer::value(p),
    }
}

fn tell_read(a: Result<Contents, Refusal>) -> NotepageRead
    ensures { result ≡ of_read a }
{
    NotepageRead {
        number: bundle_read::number(a),
        edition: bundle_read::edition(a),
        value: bundle_read::value(a),
        events: bundle_read::events_length(a),
    }
}

fn tell_progress(p: Option<Result<Contents, Refusal>>) -> NotepageRead
    ensures { result ≡ of_progress p }
{
    match p {
        None => NotepageRead {
            number: MORE,
            edition: 0,
            value: 0,
            events: 0,
        },
        Some(a) => tell_read(a),
    }
}

// ---- Options

// The bit that stands for 1, 2, 4, ..
fn has_bit(bit: u32, options: u32) -> bool
    requires { 0 < bit }
    ensures { result ≡ has_bit bit options }
{
    options / bit % 2 == 1
}

// Of the call that escapes a text: bit 0 and bit 3.
fn escaping_in(options: u32) -> Escaping
    ensures { result ≡ escaping_in options }
{
    let html = has_bit(1, options);
    let apostrophes = has_bit(8, options);
    encode_byte::escaping_of(html, apostrophes)
}

fn options_of(options: u32) -> Options
    ensures { result ≡ options_of options }
{
    Options {
        allow_dangerous_html: has_bit(1, options),
        allow_dangerous_protocol: has_bit(2, options),
        allow_any_img_src: has_bit(4, options),
        escape_apostrophes: has_bit(8, options),
        ending: ending_of(options / 256 % 4),
        names: names_of(has_bit(65536, options)),
    }
}

fn ending_of(n: u32) -> Ending
    ensures { result ≡ ending_of n }
{
    match n {
        1 => Ending::Cr,
        2 => Ending::CrLf,
        _ => Ending::Lf,
    }
}

fn names_of(html4: bool) -> Names
    ensures { result ≡ names_of html4 }
{
    if html4 { Names::Html4 } else { Names::Html5 }
}

// ---- The reader's state

fn reader_of(r: NotepageReader) -> Reader
    ensures { result ≡ reader_of r }
{
    let answer = r.answer;
    let rest = r.rest;
    let state = State {
        known: known_of(r),
        held: r.held,
        over: r.over != 0,
        progress: progress_of(r.done, answer),
    };
    Reader { state, rest }
}

fn known_of(r: NotepageReader) -> Known
    ensures { result ≡ known_of r }
{
    Known {
        begun: r.begun != 0,
        edition: r.edition,
        text: r.text,
        events: r.events,
        text_came: r.text_came,
        events_came: r.events_came,
    }
}

fn progress_of(done: u32, a: NotepageRead) -> Option<Result<Contents, Refusal>>
    ensures { result ≡ progress_of done a }
{
    if done == 0 {
        return None;
    }
    Some(answer_of(a))
}

fn answer_of(a: NotepageRead) -> Result<Contents, Refusal>
    ensures { result ≡ answer_of a }
{
    if a.number == 0 {
        return Ok(Contents {
            text: a.value,
            events: a.events,
            edition: a.edition,
        });
    }
    Err(refusal_of(a.number, a.value))
}

fn refusal_of(number: u32, place: usize) -> Refusal
    ensures { result ≡ refusal_of number place }
{
    match number {
        1 => Refusal::Short,
        11 => Refusal::BadCheck(place),
        12 => Refusal::OtherEdition(place),
        _ => Refusal::Broken(place),
    }
}

fn tell_reader(r: Reader) -> NotepageReader
    ensures { reader_of result ≡ r }
{
    let state = r.state;
    let known = state.known;
    let progress = state.progress;
    let rest = r.rest;
    NotepageReader {
        begun: known.begun as u32,
        edition: known.edition,
        text: known.text,
        events: known.events,
        text_came: known.text_came,
        events_came: known.events_came,
        over: state.over as u32,
        done: progress.is_some() as u32,
        held: state.held,
        answer: tell_progress(progress),
        rest,
    }
}
