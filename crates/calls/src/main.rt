// Every public call over standard input and output: requests in, answers out, until the input ends.
#![tactic(auto)]

ghost use Rattle.std.specs.Prelude.{◌+◌, ◌≤◌, ◌<◌, ◌≡◌, length};

use bundle_block::Refusal;
use bundle_parts::Reader;
use bundle_read::Contents;
use bundle_writer::WriteRefusal;
use character_reference::Names;
use encode_byte::escaping_of;
use lent::Writer;
use machine::{Ending, Options};
use std::io::{self, Read};

// The most that a request may bring or ask for.
const MOST_TEXT: usize = 262144;

const MOST_EVENTS: usize = 131072;

const MOST_ROOM: usize = 524288;

const MOST_WORK: usize = 131072;

// How many words are written at once.
const WORDS_AT_ONCE: usize = 1024;

// Before a call a buffer holds a byte that no answer leaves in it, or words of it.
const UNTOLD: u8 = 0xA5;

const UNTOLD_WORD: u32 = 0xA5A5_A5A5;

// The calls that write a text.
#[derive(Clone, Copy)]
enum Text {
    Escape,
    Sanitize,
    SanitizeLink,
    SanitizeImage,
    Identity,
}

// What a request asks for.
#[derive(Clone, Copy)]
enum Op {
    Write(Text),
    Check,
    Build,
    Read,
    WriteBundle,
    ReadParts,
    List,
    Normalize,
}

impl TryFrom<u8> for Op {
    type Error = End;

    fn try_from(op: u8) -> Result<Op, End> {
        match op {
            1 => Ok(Op::Write(Text::Escape)),
            2 => Ok(Op::Write(Text::Sanitize)),
            3 => Ok(Op::Write(Text::SanitizeLink)),
            4 => Ok(Op::Write(Text::SanitizeImage)),
            5 => Ok(Op::Write(Text::Identity)),
            6 => Ok(Op::Check),
            7 => Ok(Op::Build),
            8 => Ok(Op::Read),
            9 => Ok(Op::WriteBundle),
            10 => Ok(Op::ReadParts),
            11 => Ok(Op::List),
            12 => Ok(Op::Normalize),
            _ => Err(End::Request),
        }
    }
}

// Why the run ends.
#[derive(Clone, Copy)]
enum End {
    // the input has ended, or not all could be read or written
    Io,
    // no call has this number, or a limit is passed
    Request,
}

impl From<io::Error> for End {
    fn from(_error: io::Error) -> End {
        End::Io
    }
}

// A request's first 32 bytes, read.
#[derive(Clone, Copy)]
struct Request {
    op: Op,
    options: u8,
    ending: u8,
    names: u8,
    text: usize,
    events: usize,
    room: usize,
    work: usize,
    edition: u32,
}

fn main(rt: HostRuntime) {
    let mut input = [0u8; 393216];
    let mut answer = [0u8; 524312];
    let mut work = [0u8; 131072];
    let mut stdin = rt.stdin();
    serve(&rt, &mut stdin, &mut input, &mut answer, &mut work);
}

// A proved loop has to end, and nothing says that the input does: no run uses up so many turns.
fn serve(
    rt: &impl Print,
    stdin: &mut impl Read,
    input: &mut [u8],
    answer: &mut [u8],
    work: &mut [u8],
) {
    for _ in 0..u64::MAX {
        if serve_one(rt, stdin, input, answer, work).is_err() {
            return;
        }
    }
}

// Reads one request and answers it.
fn serve_one(
    rt: &impl Print,
    stdin: &mut impl Read,
    input: &mut [u8],
    answer: &mut [u8],
    work: &mut [u8],
) -> Result<(), End> {
    let mut header = [0u8; 32];
    stdin.read_exact(&mut header)?;
    let request = read_request(&header)?;
    answer_request(rt, stdin, request, input, answer, work)
}

fn read_request(header: &[u8; 32]) -> Result<Request, End> {
    Ok(Request {
        op: Op::try_from(header[0])?,
        options: header[1],
        ending: header[2],
        names: header[3],
        text: little::u32_at(header, 4) as usize,
        events: little::u32_at(header, 8) as usize,
        room: little::u32_at(header, 12) as usize,
        work: little::u32_at(header, 16) as usize,
        edition: little::u32_at(header, 20),
    })
}

// Takes the parts of the buffers that the request needs. A request past a limit ends the run.
fn answer_request(
    rt: &impl Print,
    stdin: &mut impl Read,
    r: Request,
    input: &mut [u8],
    answer: &mut [u8],
    work: &mut [u8],
) -> Result<(), End> {
    let text = r.text;
    let events = r.events;
    let room = r.room;
    let second = r.work;
    if MOST_TEXT < text || MOST_EVENTS < events || MOST_ROOM < room || MOST_WORK < second {
        return Err(End::Request);
    }
    if input.len() < text + events || answer.len() < 24 + room || work.len() < second {
        return Err(End::Request);
    }
    exchange(
        rt,
        stdin,
        r,
        &mut input[0..text + events],
        &mut answer[0..24 + room],
        &mut work[0..second],
    )
}

// Reads the text and the events, makes the call, and writes the answer with the whole buffer that was lent.
fn exchange(
    rt: &impl Print,
    stdin: &mut impl Read,
    r: Request,
    input: &mut [u8],
    answer: &mut [u8],
    work: &mut [u8],
) -> Result<(), End> {
    stdin.read_exact(input)?;
    let (text, events) = input.split_at_checked(r.text).ok_or(End::Request)?;
    if answer.len() < 24 {
        return Err(End::Request);
    }
    respond(rt, r, text, events, answer, work)
}

fn respond(
    rt: &impl Print,
    r: Request,
    text: &[u8],
    events: &[u8],
    answer: &mut [u8],
    work: &mut [u8],
) -> Result<(), End>
    requires { 24 ≤ length answer.old }
{
    match r.op {
        Op::Write(call) => write(rt, r, call, text, answer),
        Op::Check => check(rt, text, events, answer),
        Op::Build => build(rt, r, text, events, answer, work),
        Op::Read => read(rt, r, text, answer, work),
        Op::WriteBundle => write_bundle(rt, r, text, events, answer),
        Op::ReadParts => read_parts(rt, r, text, events, answer, work),
        Op::List => list(rt, r, text, events, answer),
        Op::Normalize => normalize(rt, r, text, answer),
    }
}

// The calls that write a text.
fn write(rt: &impl Print, r: Request, call: Text, text: &[u8], answer: &mut [u8]) -> Result<(), End>
    requires { 24 ≤ length answer.old }
{
    let written = call_text(r.options, call, text, &mut answer[24..]);
    put_head(&mut answer[0..24], written_head(written, r.room));
    rt.write_all(answer)?;
    Ok(())
}

// The call that percent-encodes a URL: the visits are the second number.
fn normalize(rt: &impl Print, r: Request, url: &[u8], answer: &mut [u8]) -> Result<(), End>
    requires { 24 ≤ length answer.old }
{
    let normalized = call_normalize(url, &mut answer[24..]);
    put_head(&mut answer[0..24], normalized_head(normalized, r.room));
    rt.write_all(answer)?;
    Ok(())
}

// The checker, which is lent no buffer.
fn check(rt: &impl Print, text: &[u8], events: &[u8], answer: &mut [u8]) -> Result<(), End>
    requires { 24 ≤ length answer.old }
{
    let checked = page::check(text, events);
    put_head(&mut answer[0..24], checked_head(checked));
    rt.write_all(&answer[0..24])?;
    Ok(())
}

// The build, which is lent work bytes too.
fn build(
    rt: &impl Print,
    r: Request,
    text: &[u8],
    events: &[u8],
    answer: &mut [u8],
    work: &mut [u8],
) -> Result<(), End>
    requires { 24 ≤ length answer.old }
{
    let built = call_build(r, text, events, &mut answer[24..], work);
    let head = built_head(built, r.room, state_of(work));
    put_head(&mut answer[0..24], head);
    rt.write_all(answer)?;
    Ok(())
}

// The reader, which is lent two buffers: the second one's bytes follow the first's.
fn read(
    rt: &impl Print,
    r: Request,
    bundle: &[u8],
    answer: &mut [u8],
    events: &mut [u8],
) -> Result<(), End>
    requires { 24 ≤ length answer.old }
{
    let answered = call_reader(bundle, &mut answer[24..], events);
    put_head(&mut answer[0..24], read_head(answered, r.room, r.work));
    rt.write_all(answer)?;
    rt.write_all(events)?;
    Ok(())
}

// The writer.
fn write_bundle(
    rt: &impl Print,
    r: Request,
    text: &[u8],
    events: &[u8],
    answer: &mut [u8],
) -> Result<(), End>
    requires { 24 ≤ length answer.old }
{
    let packed = call_writer(r.edition, text, events, &mut answer[24..]);
    put_head(&mut answer[0..24], packed_head(packed, r.room));
    rt.write_all(answer)?;
    Ok(())
}

// The reader in parts. While more is wanted there is nothing to show of the buffers.
fn read_parts(
    rt: &impl Print,
    r: Request,
    bytes: &[u8],
    lengths: &[u8],
    answer: &mut [u8],
    events: &mut [u8],
) -> Result<(), End>
    requires { 24 ≤ length answer.old }
{
    let reader = call_parts(r.options, bytes, lengths, &mut answer[24..], events);
    let so_far = page::bundle_so_far(reader);
    match so_far {
        None => {
            put_head(&mut answer[0..24], more_head());
            rt.write_all(&answer[0..24])?;
        }
        Some(a) => {
            put_head(&mut answer[0..24], read_head(a, r.room, r.work));
            rt.write_all(answer)?;
            rt.write_all(events)?;
        }
    }
    Ok(())
}

// A list of links, which takes and leaves words.
fn list(rt: &impl Print, r: Request, text: &[u8], ends: &[u8], answer: &mut [u8]) -> Result<(), End>
    requires { 24 ≤ length answer.old }
{
    let mut words = [0u32; 32768];
    let mut lengths = [0u32; 131072];
    list_with(rt, r, text, ends, answer, &mut words, &mut lengths)
}

// Takes the parts of the two lists that the request needs.
fn list_with(
    rt: &impl Print,
    r: Request,
    text: &[u8],
    ends: &[u8],
    answer: &mut [u8],
    words: &mut [u32],
    lengths: &mut [u32],
) -> Result<(), End>
    requires { 24 ≤ length answer.old }
{
    let places = r.work;
    if lengths.len() < places {
        return Err(End::Request);
    }
    let count = read_words(ends, words);
    if words.len() < count {
        return Err(End::Request);
    }
    list_words(
        rt,
        r,
        text,
        &words[0..count],
        answer,
        &mut lengths[0..places],
    )
}

// The lengths follow the output.
fn list_words(
    rt: &impl Print,
    r: Request,
    text: &[u8],
    ends: &[u32],
    answer: &mut [u8],
    lengths: &mut [u32],
) -> Result<(), End>
    requires { 24 ≤ length answer.old }
{
    let listed = call_links(
        text,
        ends,
        has_apostrophes(r.options),
        &mut answer[24..],
        lengths,
    );
    put_head(
        &mut answer[0..24],
        listed_head(listed, r.room, lengths.len()),
    );
    rt.write_all(answer)?;
    write_words(rt, lengths)
}

// Words, little endian, as many as there is place for; how many they are.
fn read_words(bytes: &[u8], words: &mut [u32]) -> usize {
    let (fours, _) = bytes.as_chunks::<4>();
    for (word, four) in words.iter_mut().zip(fours) {
        *word = u32::from_le_bytes(*four);
    }
    fours.len().min(words.len())
}

// As many words at once as the bytes hold.
fn write_words(rt: &impl Print, words: &[u32]) -> Result<(), End> {
    let mut bytes = [0u8; 4 * WORDS_AT_ONCE];
    for some in words.chunks(WORDS_AT_ONCE) {
        let written = put_words(&mut bytes, some);
        rt.write_all(&bytes[0..written])?;
    }
    Ok(())
}

// How many bytes were written.
fn put_words(bytes: &mut [u8], words: &[u32]) -> usize
    ensures { result ≤ length bytes.new }
{
    let (fours, _) = bytes.as_chunks_mut::<4>();
    for (four, word) in fours.iter_mut().zip(words) {
        *four = word.to_le_bytes();
    }
    4 * fours.len().min(words.len())
}

fn call_build(
    r: Request,
    text: &[u8],
    events: &[u8],
    out: &mut [u8],
    work: &mut [u8],
) -> Result<usize, call_build_answer::Refusal> {
    fill_both(out, work);
    page::build(text, events, options_of(r), out, work)
}

fn options_of(r: Request) -> Options {
    let bits = r.options;
    let ending = ending_of(r.ending);
    let names = names_of(r.names);
    Options {
        allow_dangerous_html: bits % 2 == 1,
        allow_dangerous_protocol: bits / 2 % 2 == 1,
        allow_any_img_src: bits / 4 % 2 == 1,
        escape_apostrophes: bits / 8 % 2 == 1,
        ending,
        names,
    }
}

fn names_of(names: u8) -> Names {
    match names {
        4 => Names::Html4,
        _ => Names::Html5,
    }
}

fn ending_of(ending: u8) -> Ending {
    match ending {
        1 => Ending::Cr,
        2 => Ending::CrLf,
        _ => Ending::Lf,
    }
}

fn call_reader(bundle: &[u8], text: &mut [u8], events: &mut [u8]) -> Result<Contents, Refusal> {
    fill_both(text, events);
    page::read_bundle(bundle, text, events)
}

fn call_writer(
    edition: u32,
    text: &[u8],
    events: &[u8],
    out: &mut [u8],
) -> Result<usize, WriteRefusal> {
    out.fill(UNTOLD);
    page::write_bundle(text, events, edition, out)
}

// The parts; with bit 0 the end; with bit 1 two calls more, a part of three bytes and the end again.
fn call_parts(
    options: u8,
    bytes: &[u8],
    lengths: &[u8],
    text: &mut [u8],
    events: &mut [u8],
) -> Reader {
    fill_both(text, events);
    let fed = feed_parts(page::bundle_reader(), bytes, lengths, text, events);
    end_parts(options, fed, text, events)
}

fn end_parts(options: u8, fed: Reader, text: &mut [u8], events: &mut [u8]) -> Reader {
    if options % 2 == 0 {
        return fed;
    }
    let ended = page::end_bundle(fed, text, events);
    if options / 2 % 2 == 0 {
        return ended;
    }
    let more = page::feed_bundle(ended, b"ZZZ", text, events);
    page::end_bundle(more, text, events)
}

// As many bytes for each part as its length says and as are left.
fn feed_parts(
    first: Reader,
    bytes: &[u8],
    lengths: &[u8],
    text: &mut [u8],
    events: &mut [u8],
) -> Reader {
    let mut reader = first;
    let mut at = 0;
    let (lengths, _) = lengths.as_chunks::<4>();
    for length in lengths {
        let length = u32::from_le_bytes(*length) as usize;
        let end = at + length.min(bytes.len() - at);
        reader = page::feed_bundle(reader, &bytes[at..end], text, events);
        at = end;
    }
    reader
}

fn call_links(
    text: &[u8],
    ends: &[u32],
    apostrophes: bool,
    out: &mut [u8],
    lengths: &mut [u32],
) -> Result<usize, call_links_answer::Refusal> {
    out.fill(UNTOLD);
    lengths.fill(UNTOLD_WORD);
    page::sanitize_links(text, ends, apostrophes, out, lengths)
}

// Bit 3.
fn has_apostrophes(options: u8) -> bool {
    options / 8 % 2 == 1
}

fn call_text(
    options: u8,
    call: Text,
    text: &[u8],
    out: &mut [u8],
) -> Result<usize, call_text_answer::Refusal> {
    out.fill(UNTOLD);
    let apostrophes = has_apostrophes(options);
    match call {
        Text::Escape => page::escape(text, escaping_of(options % 2 == 1, apostrophes), out),
        Text::Sanitize => page::sanitize(text, apostrophes, out),
        Text::SanitizeLink => page::sanitize_link(text, apostrophes, out),
        Text::SanitizeImage => page::sanitize_image(text, apostrophes, out),
        Text::Identity => page::identity(text, out),
    }
}

fn call_normalize(
    url: &[u8],
    out: &mut [u8],
) -> Result<call_normalize::Url, call_text_answer::Refusal> {
    out.fill(UNTOLD);
    page::normalize(url, out)
}

// The answer's first 24 bytes; a number that an answer doesn't have is 0.
#[derive(Clone, Copy, Default)]
struct Head {
    number: u32,
    value: usize,
    second: usize,
    edition: u32,
    room: usize,
    work: usize,
}

fn put_head(out: &mut [u8], h: Head) {
    put_u32(out, 0, h.number as usize);
    put_u32(out, 4, h.value);
    put_u32(out, 8, h.second);
    put_u32(out, 12, h.edition as usize);
    put_u32(out, 16, h.room);
    put_u32(out, 20, h.work);
}

fn written_head(w: Result<usize, call_text_answer::Refusal>, room: usize) -> Head {
    Head {
        number: page::number(w),
        value: page::value(w),
        room,
        ..Head::default()
    }
}

fn normalized_head(n: Result<call_normalize::Url, call_text_answer::Refusal>, room: usize) -> Head {
    Head {
        number: call_normalize::number(n),
        value: call_normalize::value(n),
        second: call_normalize::visits(n),
        room,
        ..Head::default()
    }
}

fn listed_head(r: Result<usize, call_links_answer::Refusal>, room: usize, places: usize) -> Head {
    Head {
        number: call_links_answer::number(r),
        value: call_links_answer::value(r),
        room,
        work: four_times(places),
        ..Head::default()
    }
}

// The bytes of so many words, which `answer_request` holds to `MOST_WORK`.
fn four_times(words: usize) -> usize {
    if MOST_WORK < words {
        return 0;
    }
    4 * words
}

fn checked_head(c: Result<(), check_list::Refusal>) -> Head {
    Head {
        number: check_list::number(c),
        value: check_list::place(c),
        ..Head::default()
    }
}

fn built_head(b: Result<usize, call_build_answer::Refusal>, room: usize, work: usize) -> Head {
    Head {
        number: call_build_answer::number(b),
        value: call_build_answer::value(b),
        room,
        work,
        ..Head::default()
    }
}

fn read_head(a: Result<Contents, Refusal>, room: usize, work: usize) -> Head {
    Head {
        number: bundle_read::number(a),
        value: bundle_read::value(a),
        second: bundle_read::events_length(a),
        edition: bundle_read::edition(a),
        room,
        work,
    }
}

fn packed_head(p: Result<usize, WriteRefusal>, room: usize) -> Head {
    Head {
        number: bundle_writer::number(p),
        value: bundle_writer::value(p),
        room,
        ..Head::default()
    }
}

// More is wanted.
fn more_head() -> Head {
    Head {
        number: 255,
        ..Head::default()
    }
}

fn put_u32(head: &mut [u8], at: usize, x: usize) {
    let mut w = Writer { bytes: head, at };
    little::put(&mut w, little::U32, x);
}

fn fill_both(one: &mut [u8], other: &mut [u8]) {
    one.fill(UNTOLD);
    other.fill(UNTOLD);
}

// 1 where every byte is zero, else 2.
fn state_of(s: &[u8]) -> usize {
    if s.iter().all(|b| *b == 0) { 1 } else { 2 }
}
