// The state of a build by value, the machine's own in code: places, counts and flags. The bytes stand in lent buffers beside it.
#![tactic(auto)]

ghost use Rattle.std.specs.Prelude.{◌≡◌, ◌<◌};
ghost use Rattle.std.proofs.Math.Option.{none, some};
ghost use Rattle.machine.specs.Set.{slurp, encode, raw, alt, head};
ghost use Rattle.machine.specs.Test.{is, is_tight, is_in_container, has_rank, has_seen_data, is_first_fence, is_fenced_once, is_fence_missing, is_first_marker};
ghost use Rattle.machine.specs.Words.{slice, buffer, drop, line_ending, line_ending_if_needed, set, open_container, close_container, marker, forget_rank, fences, count_fence, seen_data, first};
ghost use Rattle.state_context.specs.Rel.{Any, Sees, Keeps, Begins, Ends, Pushes, PushesTag, Begun, Sets, Tells, Ranks, MarkIs, ForgetsMarker, answer_of, answer_digit, mark_digit, ending_at, names_at, apostrophes_at, ending_in, names_in, apostrophes_in, fixed_in, escaping_in};
ghost use Rattle.state_context.specs.Private.{Digit, SetsFlag, TellsFlag, Starts};

use character_reference::{Marker, Names};
use encode_byte::Escaping;
use event::Event;
use machine::{Ending, Fixed};
use packed::Tight;
use state_buffers::Buffers;

// The table that is open: its enter's extra field, and the column of the next cell. The flag stays beside the field, which is read
// with no branch whether a table is open or not.
#[derive(Clone, Copy)]
pub struct Table {
    pub inside: bool,
    pub extra: u64,
    pub column: usize,
}

#[derive(Clone, Copy)]
pub struct Context {
    pub buffers: Buffers,
    // the flags, the answers that wait, and what a build never changes: a digit each
    pub word: u64,
    // of an atx heading
    pub rank: Option<usize>,
    // which containers are
    pub tight: Tight,
    pub table: Table,
}

// ---- where each stands in the word

const SLURP: usize = 0;

const ENCODE: usize = 1;

const RAW: usize = 2;

const ALT: usize = 3;

const HEAD: usize = 4;

const SEEN: usize = 5;

const FENCES: usize = 6;

const MARKER: usize = 7;

const FIRST: usize = 8;

const ENDING: usize = 9;

const NAMES: usize = 10;

const APOSTROPHES: usize = 11;

// HTML is encoded, and no other flag or answer is set.
const AT_START: u64 = 4;

fn ending_digit(x: Ending) -> u64
    ensures { (result < 4) × (ending_at result ≡ x) }
{
    match x {
        Ending::Lf => 0,
        Ending::Cr => 1,
        Ending::CrLf => 2,
    }
}

fn names_digit(x: Names) -> u64
    ensures { (result < 4) × (names_at result ≡ x) }
{
    match x {
        Names::Html4 => 0,
        Names::Html5 => 1,
    }
}

fn apostrophes_digit(x: bool) -> u64
    ensures { (result < 4) × (apostrophes_at result ≡ x) }
{
    u64::from(x)
}

fn first_word(fixed: Fixed) -> u64
    ensures { Starts fixed result }
{
    let ending = fixed.ending;
    let names = fixed.names;
    let apostrophes = fixed.apostrophes;
    let e = ending_digit(ending);
    let n = names_digit(names);
    let a = apostrophes_digit(apostrophes);
    let w = packed::with_digit(AT_START, ENDING, e);
    let v = packed::with_digit(w, NAMES, n);
    packed::with_digit(v, APOSTROPHES, a)
}

// Before the first event.
pub fn new(fixed: Fixed) -> Context
    ensures { Begun fixed result }
{
    let buffers = Buffers {
        page: 0,
        end: 0,
        start: 0,
        depth: 0,
    };
    let tight = Tight { bits: 0, count: 0 };
    let table = Table {
        inside: false,
        extra: 0,
        column: 0,
    };
    let word = first_word(fixed);
    Context {
        buffers,
        word,
        rank: None,
        tight,
        table,
    }
}

// ---- what a build never changes

pub fn ending_in(c: Context) -> Ending
    ensures { result ≡ ending_in c.word }
{
    let d = packed::digit(c.word, ENDING);
    if d == 0 {
        return Ending::Lf;
    }
    if d == 1 {
        return Ending::Cr;
    }
    Ending::CrLf
}

pub fn names_in(c: Context) -> Names
    ensures { result ≡ names_in c.word }
{
    if packed::digit(c.word, NAMES) == 0 {
        return Names::Html4;
    }
    Names::Html5
}

pub fn apostrophes_in(c: Context) -> bool
    ensures { result ≡ apostrophes_in c.word }
{
    packed::digit(c.word, APOSTROPHES) != 0
}

pub fn fixed_in(c: Context) -> Fixed
    ensures { result ≡ fixed_in c.word }
{
    let ending = ending_in(c);
    let names = names_in(c);
    let apostrophes = apostrophes_in(c);
    Fixed {
        ending,
        names,
        apostrophes,
    }
}

// How what is pushed is escaped: by the flag and what the build wants, together.
pub fn escaping_in(c: Context) -> Escaping
    ensures { result ≡ escaping_in c.word }
{
    let html = packed::digit(c.word, ENCODE) != 0;
    let apostrophes = apostrophes_in(c);
    encode_byte::escaping_of(html, apostrophes)
}

// ---- writing

// Appends to the newest buffer.
pub fn push(c: Context, captures: &mut [u8], out: &mut [u8], s: &[u8]) -> Context
    ensures { Pushes s.now c captures.old out.old result captures.new out.new }
{
    let mut r = c;
    r.buffers = state_buffers::push(c.buffers, captures, out, s);
    r
}

pub fn line_ending(c: Context, captures: &mut [u8], out: &mut [u8]) -> Context
    ensures { Keeps Any line_ending c captures.old out.old result captures.new out.new }
{
    let mut r = c;
    let ending = ending_in(c);
    r.buffers = state_buffers::line_ending_by(c.buffers, true, ending, captures, out);
    r
}

pub fn line_ending_if_needed(c: Context, captures: &mut [u8], out: &mut [u8]) -> Context
    ensures { Keeps Any line_ending_if_needed c captures.old out.old result captures.new out.new }
{
    let mut r = c;
    let ending = ending_in(c);
    r.buffers = state_buffers::line_ending_by(c.buffers, false, ending, captures, out);
    r
}

// A tag: none in the text of an image.
pub fn push_tag(c: Context, captures: &mut [u8], out: &mut [u8], s: &[u8]) -> Context
    ensures { PushesTag s.now c captures.old out.old result captures.new out.new }
{
    if is_alt(c) {
        return c;
    }
    push(c, captures, out, s)
}

// The event's slice of the text, encoded where the flag says so.
pub fn push_slice(c: Context, text: &[u8], e: Event, captures: &mut [u8], out: &mut [u8]) -> Context
    ensures { Keeps (Sees text.now e) slice c captures.old out.old result captures.new out.new }
{
    let Some(s) = text.get(e.from.0..e.to.0) else {
        return c;
    };
    let mut r = c;
    let escaping = escaping_in(c);
    r.buffers = state_buffers::push_encoded(c.buffers, captures, out, s, escaping);
    r
}

// Opens a capture.
pub fn open(c: Context, starts: &mut [usize]) -> Context
    ensures { Begins buffer c starts.old result starts.new }
{
    let mut r = c;
    r.buffers = state_buffers::open(c.buffers, starts);
    r
}

// Takes the newest capture off.
pub fn drop(c: Context, starts: &[usize]) -> Context
    ensures { Ends drop c starts.now result }
{
    let mut r = c;
    r.buffers = state_buffers::drop(c.buffers, starts);
    r
}

// ---- the word

fn with_digit(c: Context, k: usize, x: u64) -> Context
    requires { (k < 32) × (x < 4) }
    ensures { Digit k x c result }
{
    let mut r = c;
    r.word = packed::with_digit(c.word, k, x);
    r
}

fn with_flag(c: Context, k: usize, x: bool) -> Context
    requires { k < 32 }
    ensures { SetsFlag k x c result }
{
    with_digit(c, k, u64::from(x))
}

fn has_flag(c: Context, k: usize) -> bool
    requires { k < 32 }
    ensures { TellsFlag k c result }
{
    packed::digit(c.word, k) != 0
}

// ---- flags

// Whether the next line ending is swallowed.
pub fn is_slurping(c: Context) -> bool
    ensures { Tells Any (is slurp) c result }
{
    has_flag(c, SLURP)
}

pub fn set_slurp(c: Context, x: bool) -> Context
    ensures { Sets (set slurp x) c result }
{
    with_flag(c, SLURP, x)
}

// Whether HTML is encoded: `escaping_in` says how.
pub fn set_encode(c: Context, x: bool) -> Context
    ensures { Sets (set encode x) c result }
{
    with_flag(c, ENCODE, x)
}

// Whether this is code text.
pub fn is_raw(c: Context) -> bool
    ensures { Tells Any (is raw) c result }
{
    has_flag(c, RAW)
}

pub fn set_raw(c: Context, x: bool) -> Context
    ensures { Sets (set raw x) c result }
{
    with_flag(c, RAW, x)
}

// Whether this is in the text of an image.
pub fn is_alt(c: Context) -> bool
    ensures { Tells Any (is alt) c result }
{
    has_flag(c, ALT)
}

pub fn set_alt(c: Context, x: bool) -> Context
    ensures { Sets (set alt x) c result }
{
    with_flag(c, ALT, x)
}

// Whether this is in the head of a table.
pub fn is_head(c: Context) -> bool
    ensures { Tells Any (is head) c result }
{
    has_flag(c, HEAD)
}

pub fn set_head(c: Context, x: bool) -> Context
    ensures { Sets (set head x) c result }
{
    with_flag(c, HEAD, x)
}

// ---- containers

// A container is opened.
pub fn open_container(c: Context, x: bool) -> Context
    ensures { Sets (open_container x) c result }
{
    let mut r = c;
    r.tight = c.tight.more(x);
    r
}

// The newest container goes.
pub fn close_container(c: Context) -> Context
    ensures { Sets close_container c result }
{
    let mut r = c;
    r.tight = c.tight.fewer();
    r
}

pub fn is_tight(c: Context) -> bool
    ensures { Tells Any is_tight c result }
{
    c.tight.newest()
}

pub fn is_in_container(c: Context) -> bool
    ensures { Tells Any is_in_container c result }
{
    c.tight.count != 0
}

// ---- the rank of a heading

pub fn with_rank(c: Context, x: Option<usize>) -> Context
    ensures { Ranks x c result }
{
    let mut r = c;
    r.rank = x;
    r
}

pub fn forget_rank(c: Context) -> Context
    ensures { Sets forget_rank c result }
{
    with_rank(c, None)
}

pub fn has_rank(c: Context) -> bool
    ensures { Tells Any has_rank c result }
{
    c.rank.is_some()
}

// ---- answers: a digit is 0 for none, 1 for yes, 2 for no

fn answer_digit(x: Option<bool>) -> u64
    ensures { result ≡ answer_digit (answer_of x) }
{
    match x {
        None => 0,
        Some(true) => 1,
        Some(false) => 2,
    }
}

pub fn set_seen(c: Context, x: Option<bool>) -> Context
    ensures { Sets (seen_data (answer_of x)) c result }
{
    let d = answer_digit(x);
    with_digit(c, SEEN, d)
}

pub fn has_seen_data(c: Context) -> bool
    ensures { Tells Any has_seen_data c result }
{
    packed::digit(c.word, SEEN) == 1
}

// Whether the next item is its list's first.
pub fn set_first(c: Context, x: bool) -> Context
    ensures { Sets (first x) c result }
{
    if x {
        return with_digit(c, FIRST, 1);
    }
    with_digit(c, FIRST, 2)
}

pub fn is_first_marker(c: Context) -> bool
    ensures { Tells Any is_first_marker c result }
{
    packed::digit(c.word, FIRST) == 1
}

// ---- the marker of a character reference

fn marker_digit(x: Marker) -> u64
    ensures { result ≡ mark_digit (some x) }
{
    match x {
        Marker::Named => 1,
        Marker::Decimal => 2,
        Marker::Hexadecimal => 3,
    }
}

pub fn set_marker(c: Context, x: Marker) -> Context
    ensures { Sets (marker x) c result }
{
    let d = marker_digit(x);
    with_digit(c, MARKER, d)
}

pub fn forget_marker(c: Context) -> Context
    ensures { ForgetsMarker c result }
{
    with_digit(c, MARKER, 0)
}

pub fn waiting_marker(c: Context) -> Option<Marker>
    ensures { MarkIs c result }
{
    let d = packed::digit(c.word, MARKER);
    if d == 0 {
        return None;
    }
    if d == 1 {
        return Some(Marker::Named);
    }
    if d == 2 {
        return Some(Marker::Decimal);
    }
    Some(Marker::Hexadecimal)
}

// ---- fences: 0 outside of a fenced block, then one more than it has so far

// A fenced block begins.
pub fn open_fences(c: Context) -> Context
    ensures { Sets (fences (some 0)) c result }
{
    with_digit(c, FENCES, 1)
}

// It ends.
pub fn end_fences(c: Context) -> Context
    ensures { Sets (fences none) c result }
{
    with_digit(c, FENCES, 0)
}

// One fence more.
pub fn count_fence(c: Context) -> Context
    ensures { Sets count_fence c result }
{
    let d = packed::digit(c.word, FENCES);
    if d == 1 {
        return with_digit(c, FENCES, 2);
    }
    if d == 2 {
        return with_digit(c, FENCES, 3);
    }
    c
}

pub fn is_first_fence(c: Context) -> bool
    ensures { Tells Any is_first_fence c result }
{
    packed::digit(c.word, FENCES) == 1
}

pub fn is_fenced_once(c: Context) -> bool
    ensures { Tells Any is_fenced_once c result }
{
    packed::digit(c.word, FENCES) == 2
}

pub fn is_fence_missing(c: Context) -> bool
    ensures { Tells Any is_fence_missing c result }
{
    let d = packed::digit(c.word, FENCES);
    (d == 1) | (d == 2)
}
