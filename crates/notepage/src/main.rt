// One note bundle on standard input, taken as it comes; its page on standard output, or one line that says why there is none.
#![tactic(auto)]

ghost use Rattle.std.specs.Prelude.{◌≤◌, true, ◌≡◌, length, take};
ghost use Rattle.notepage.specs.Came.{CameTo, Turned, no_bytes};
ghost use Rattle.notepage.specs.Shows.{Shows, ShowsEnd, ShowsNote, off_of, shown_of};

use bundle_parts::Reader;
use bundle_read::LEAST_ROOM;
use call_build_answer::{LEAST_WORK, Refusal};
use character_reference::Names;
use machine::{Ending, Options};
use std::alloc::{AllocError, Global};
use std::io::{ErrorKind, Read};
use std::process::ExitCode;
use std::rt::Clock;
use std::time::Duration;
use std::{fmt, io, thread};

// The most bytes of a page that it writes.
const PAGE_ROOM: usize = 65536;

// The most bytes that it reads at once.
const READ_ROOM: usize = 65536;

// How long it waits where the input has nothing yet.
const MILLISECONDS: u64 = 1;

// Why there is no page: a refusal, by its number and place; or the input could not be read.
#[derive(Clone, Copy)]
pub enum NoPage {
    Refused(u32, usize),
    Unread,
}

impl fmt::Display for NoPage {
    fn fmt<W: fmt::Write>(&self, f: &mut fmt::Formatter<W>) -> fmt::Result {
        match self {
            NoPage::Refused(number, place) => write!(f, "refused {number} at {place}"),
            NoPage::Unread => write!(f, "standard input can't be read"),
        }
    }
}

// What a read of the input comes to: it is to be tried again, bytes came, the input has ended, or it can't be read.
// Stays our own enum: it has four answers.
#[derive(Clone, Copy)]
pub enum Input {
    Again,
    Some,
    End,
    Failed,
}

// The reader after a read.
#[derive(Clone, Copy)]
pub struct Turn {
    pub input: Input,
    pub reader: Reader,
}

fn main(rt: HostRuntime) -> ExitCode {
    let mut text = [0u8; LEAST_ROOM];
    let mut events = [0u8; LEAST_ROOM];
    let mut out = [0u8; PAGE_ROOM];
    let mut work = [0u8; LEAST_WORK];
    let mut input = rt.stdin();
    let shown = page_of_input(&rt, &mut input, &mut text, &mut events, &mut out, &mut work);
    show(&rt, shown, &out)
}

// The page of the note whose bundle the input brings.
fn page_of_input(
    rt: &(impl Eprint + AllocGlobal + Clock),
    input: &mut impl Read,
    text: &mut [u8],
    events: &mut [u8],
    out: &mut [u8],
    work: &mut [u8],
) -> Result<usize, NoPage>
    ensures { Shows text.old events.old out.old work.old out.new result }
{
    let turn = read_all(rt, input, text, events);
    let last = turn.input;
    let Input::End = last else {
        return Err(NoPage::Unread);
    };
    let reader = turn.reader;
    page_of(reader, text, events, out, work)
}

// Reads until the input ends. A proved loop has to end, and nothing says that the input does: no run uses up so many turns.
fn read_all(
    rt: &(impl Eprint + AllocGlobal + Clock),
    input: &mut impl Read,
    text: &mut [u8],
    events: &mut [u8],
) -> Turn
    ensures { CameTo text.old events.old text.new events.new result }
{
    let mut reader = page::bundle_reader();
    for _ in 0..u64::MAX {
        let turn = read_some(rt, input, reader, text, events);
        let last = turn.input;
        match last {
            Input::Some => reader = turn.reader,
            Input::Again => thread::sleep(rt, Duration::from_millis(MILLISECONDS)),
            Input::End => return turn,
            Input::Failed => return turn,
        }
    }
    Turn {
        input: Input::Failed,
        reader,
    }
}

// One read, of as many bytes as are there.
fn read_some(
    rt: &(impl Eprint + AllocGlobal),
    input: &mut impl Read,
    reader: Reader,
    text: &mut [u8],
    events: &mut [u8],
) -> Turn
    ensures { Turned reader text.old events.old text.new events.new result }
{
    let mut buffer = [0u8; READ_ROOM];
    match input.read(&mut buffer) {
        Err(error) => Turn {
            input: failed(rt, &error),
            reader,
        },
        Ok(0) => Turn {
            input: Input::End,
            reader,
        },
        Ok(n) => Turn {
            input: Input::Some,
            reader: page::feed_bundle(reader, &buffer[..n], text, events),
        },
    }
}

// A read that was interrupted, or has nothing yet, is tried again; any other is said on standard error.
fn failed(rt: &(impl Eprint + AllocGlobal), error: &io::Error) -> Input
    ensures { no_bytes result ≡ true }
{
    match error.kind() {
        ErrorKind::Interrupted | ErrorKind::WouldBlock => Input::Again,
        _ => {
            fail(
                rt,
                "standard input can't be read, so there is no page",
                error,
            );
            Input::Failed
        }
    }
}

// The page of what the reader has taken.
fn page_of(
    reader: Reader,
    text: &mut [u8],
    events: &mut [u8],
    out: &mut [u8],
    work: &mut [u8],
) -> Result<usize, NoPage>
    ensures { ShowsEnd reader text.old events.old out.old work.old out.new result }
{
    let ended = page::end_bundle(reader, text, events);
    let so_far = page::bundle_so_far(ended);
    let Some(read) = so_far else {
        return Err(NoPage::Unread);
    };
    match read {
        Err(_) => Err(NoPage::Refused(bundle_read::number(read), bundle_read::value(read))),
        Ok(contents) => build_read(text, contents.text, events, contents.events, out, work),
    }
}

// The page, where the lengths are inside the buffers: what the reader says always is.
fn build_read(
    text: &[u8],
    n: usize,
    events: &[u8],
    m: usize,
    out: &mut [u8],
    work: &mut [u8],
) -> Result<usize, NoPage>
    ensures { n ≤ length text.now → m ≤ length events.now → ShowsNote (take n text.now) (take m events.now) out.old work.old out.new result }
{
    if text.len() < n {
        return Err(NoPage::Unread);
    }
    if events.len() < m {
        return Err(NoPage::Unread);
    }
    build_parts(text, n, events, m, out, work)
}

// The page of what stands in the first bytes of two buffers.
fn build_parts(
    text: &[u8],
    n: usize,
    events: &[u8],
    m: usize,
    out: &mut [u8],
    work: &mut [u8],
) -> Result<usize, NoPage>
    requires { (n ≤ length text.now) × (m ≤ length events.now) }
    ensures { ShowsNote (take n text.now) (take m events.now) out.old work.old out.new result }
{
    let built = page::build(&text[0..n], &events[0..m], off(), out, work);
    shown_of(built)
}

// No option is on, and a line ends in LF where the note has no line ending.
fn off() -> Options
    ensures { result ≡ off_of }
{
    Options {
        allow_dangerous_html: false,
        allow_dangerous_protocol: false,
        allow_any_img_src: false,
        escape_apostrophes: false,
        ending: Ending::Lf,
        names: Names::Html5,
    }
}

fn shown_of(b: Result<usize, Refusal>) -> Result<usize, NoPage>
    ensures { result ≡ shown_of b }
{
    match b {
        Ok(n) => Ok(n),
        Err(refusal) => Err(NoPage::Refused(refusal.number(), refusal.place())),
    }
}

// Whether the page or the refusal could be told: only then the program ends with 0.
fn show(
    rt: &(impl Print + Eprint + AllocGlobal),
    shown: Result<usize, NoPage>,
    out: &[u8],
) -> ExitCode {
    match shown {
        Err(NoPage::Unread) => ExitCode::FAILURE,
        Err(refused) => told(rt, println!(rt; "{refused}")),
        Ok(n) => {
            if out.len() < n {
                return ExitCode::FAILURE;
            }
            told(rt, rt.write_all(&out[0..n]))
        }
    }
}

// Says on standard error where not all was written.
fn told(rt: &(impl Eprint + AllocGlobal), written: io::Result<()>) -> ExitCode {
    match written {
        Ok(()) => ExitCode::SUCCESS,
        Err(error) => {
            fail(rt, "not all was written on standard output", &error);
            ExitCode::FAILURE
        }
    }
}

// A line on standard error: what failed, and the system's words for why. Where standard error takes none, it is lost.
fn fail(rt: &(impl Eprint + AllocGlobal), what: &str, error: &io::Error) {
    let _ = match words_of(rt.alloc(), error) {
        Ok(words) => eprintln!(rt; "{what}: {words}"),
        Err(_) => eprintln!(rt; "{what}"),
    };
}

// The error's words, without the number that std puts behind the system's.
fn words_of(alloc: Global, error: &io::Error) -> Result<String, AllocError> {
    let whole = format!(in alloc; "{error}")?;
    match whole.split_once(" (os error ") {
        Some((words, _)) => String::from_str(alloc, words),
        None => String::from_str(alloc, whole.as_str()),
    }
}
