// The note bundle, read whole: judged first, in the order of RULES R15.6, and copied only then.
#![tactic(auto)]

ghost use Rattle.std.specs.Prelude.{◌+◌, ◌-◌, ◌*◌, ◌≤◌, ◌<◌, ◌++◌, ◌≡◌, length};
ghost use Rattle.lent.specs.Fill.{zeros};
ghost use Rattle.bundle_block.specs.Block.{◌before◌, edition_in};
ghost use Rattle.bundle_read.specs.Bundle.{blocks_for, text_length, event_count, event_length, text_blocks, event_blocks, text_in, events_in};
ghost use Rattle.bundle_read.specs.Bundle.{judge_length, judge_header, judge_count, judge_text, judge_events, judge_bundle};
ghost use Rattle.bundle_read.specs.Read.{number_of, value_of, events_of, edition_of, refusal_number, refusal_place, judge_call, HasRead};

use bundle_block::Refusal;
use bundle_run::BLOCK;
use event::Event;

pub const MOST_TEXT: usize = 64000;

pub const MOST_EVENTS: usize = 3200;

pub const LEAST_ROOM: usize = 64000;

const RECORDS_PER_BLOCK: usize = 25;

pub const TEXT_ROOM: usize = 500;

pub const EVENT_ROOM: usize = RECORDS_PER_BLOCK * Event::SIZE;

pub const HEADER_USED: usize = 8;

pub const HEADER_KIND: u8 = 1;

pub const TEXT_KIND: u8 = 2;

pub const EVENT_KIND: u8 = 3;

// What a bundle holds, in bytes, and its edition.
#[derive(Clone, Copy)]
pub struct Contents {
    pub text: usize,
    pub events: usize,
    pub edition: u32,
}

// Reads the text and the events of a bundle into two buffers.
pub fn read(bundle: &[u8], text: &mut [u8], events: &mut [u8]) -> Result<Contents, Refusal>
    ensures { HasRead bundle.now text.old events.old text.new events.new result }
{
    match judge_call(bundle, text.len(), events.len()) {
        Err(r) => {
            lent::clear(text, 0);
            lent::clear(events, 0);
            Err(r)
        }
        Ok(()) => {
            fill_text(bundle, text);
            fill_events(bundle, events);
            Ok(header(bundle))
        }
    }
}

// An answer's number (RULES R7.1).
pub fn number(a: Result<Contents, Refusal>) -> u32
    ensures { result ≡ number_of a }
{
    match a {
        Ok(_) => 0,
        Err(r) => refusal_number(r),
    }
}

// The text's length, or the refusal's place.
pub fn value(a: Result<Contents, Refusal>) -> usize
    ensures { result ≡ value_of a }
{
    match a {
        Ok(contents) => contents.text,
        Err(r) => refusal_place(r),
    }
}

// The events' length in bytes.
pub fn events_length(a: Result<Contents, Refusal>) -> usize
    ensures { result ≡ events_of a }
{
    match a {
        Ok(contents) => contents.events,
        Err(_) => 0,
    }
}

pub fn edition(a: Result<Contents, Refusal>) -> u32
    ensures { result ≡ edition_of a }
{
    match a {
        Ok(contents) => contents.edition,
        Err(_) => 0,
    }
}

// A refusal's number (RULES R7.1).
pub fn refusal_number(r: Refusal) -> u32
    ensures { result ≡ refusal_number r }
{
    match r {
        Refusal::Short => 1,
        Refusal::Broken(_) => 10,
        Refusal::BadCheck(_) => 11,
        Refusal::OtherEdition(_) => 12,
    }
}

// The block at fault.
pub fn refusal_place(r: Refusal) -> usize
    ensures { result ≡ refusal_place r }
{
    match r {
        Refusal::Short => 0,
        Refusal::Broken(block) | Refusal::BadCheck(block) | Refusal::OtherEdition(block) => block,
    }
}

// Refusal 1, then the others.
fn judge_call(bundle: &[u8], text: usize, events: usize) -> Result<(), Refusal>
    ensures { result ≡ judge_call bundle.now text events }
{
    bundle_block::demand(
        (LEAST_ROOM <= text) & (LEAST_ROOM <= events),
        Refusal::Short,
    )?;
    judge_bundle(bundle)
}

fn judge_bundle(bundle: &[u8]) -> Result<(), Refusal>
    ensures { result ≡ judge_bundle bundle.now }
{
    judge_length(bundle)?;
    judge_header(bundle)?;
    judge_count(bundle)?;
    judge_runs(bundle)
}

fn judge_length(bundle: &[u8]) -> Result<(), Refusal>
    ensures { result ≡ judge_length bundle.now }
{
    bundle_block::demand(
        (0 < bundle.len()) & (bundle.len() % BLOCK == 0),
        Refusal::Broken(0),
    )
}

pub fn judge_header(bundle: &[u8]) -> Result<(), Refusal>
    requires { 512 ≤ length bundle.now }
    ensures { result ≡ judge_header bundle.now }
{
    let block = bundle_block::judge_block(
        &bundle[0..BLOCK],
        little::u32_at(bundle, 0),
        0,
        HEADER_KIND,
        HEADER_USED,
    );
    let small = (text_length(bundle) <= MOST_TEXT) & (event_count(bundle) <= MOST_EVENTS);
    block.and(bundle_block::demand(small, Refusal::Broken(0)))
}

fn judge_count(bundle: &[u8]) -> Result<(), Refusal>
    requires { 512 ≤ length bundle.now }
    ensures { result ≡ judge_count bundle.now }
{
    let said = 1 + text_blocks(bundle) + event_blocks(bundle);
    let there = bundle.len() / BLOCK;
    bundle_block::demand(there == said, Refusal::Broken(0))
}

// The blocks behind the header.
fn judge_runs(bundle: &[u8]) -> Result<(), Refusal>
    requires { 512 * (1 + text_blocks bundle.now + event_blocks bundle.now) ≤ length bundle.now }
    ensures { result ≡ (judge_text bundle.now before judge_events bundle.now) }
{
    judge_text(bundle)?;
    judge_events(bundle)
}

// Beside `judge_events`: each is one call, and nothing but its arguments would be shared.
fn judge_text(bundle: &[u8]) -> Result<(), Refusal>
    requires { 512 * (1 + text_blocks bundle.now) ≤ length bundle.now }
    ensures { result ≡ judge_text bundle.now }
{
    let end = 1 + text_blocks(bundle);
    bundle_run::judge_run(
        &bundle[BLOCK..],
        little::u32_at(bundle, 0),
        TEXT_KIND,
        TEXT_ROOM,
        1,
        end,
        text_length(bundle),
    )
}

fn judge_events(bundle: &[u8]) -> Result<(), Refusal>
    requires { 512 * (1 + text_blocks bundle.now + event_blocks bundle.now) ≤ length bundle.now }
    ensures { result ≡ judge_events bundle.now }
{
    let start = 1 + text_blocks(bundle);
    let end = start + event_blocks(bundle);
    let from = BLOCK * start;
    bundle_run::judge_run(
        &bundle[from..],
        little::u32_at(bundle, 0),
        EVENT_KIND,
        EVENT_ROOM,
        start,
        end,
        event_length(bundle),
    )
}

fn fill_text(bundle: &[u8], text: &mut [u8])
    requires { (512 * (1 + text_blocks bundle.now) ≤ length bundle.now) × (text_length bundle.now ≤ length text.old) }
    ensures { text.new ≡ text_in bundle.now ++ zeros (length text.old - text_length bundle.now) }
{
    bundle_run::fill_run(
        &bundle[BLOCK..],
        TEXT_ROOM,
        text_blocks(bundle),
        text_length(bundle),
        text,
    );
}

fn fill_events(bundle: &[u8], events: &mut [u8])
    requires { (512 * (1 + text_blocks bundle.now + event_blocks bundle.now) ≤ length bundle.now) × (event_length bundle.now ≤ length events.old) }
    ensures { events.new ≡ events_in bundle.now ++ zeros (length events.old - event_length bundle.now) }
{
    let from = BLOCK * (1 + text_blocks(bundle));
    bundle_run::fill_run(
        &bundle[from..],
        EVENT_ROOM,
        event_blocks(bundle),
        event_length(bundle),
        events,
    );
}

// What the header says.
fn header(bundle: &[u8]) -> Contents
    requires { 512 ≤ length bundle.now }
    ensures { result ≡ record { text = text_length bundle.now; events = event_length bundle.now; edition = edition_in bundle.now } }
{
    Contents {
        text: text_length(bundle),
        events: event_length(bundle),
        edition: little::u32_at(bundle, 0),
    }
}

fn text_length(bundle: &[u8]) -> usize
    requires { 512 ≤ length bundle.now }
    ensures { (result ≡ text_length bundle.now) × (result < 4294967296) }
{
    little::u32_at(bundle, 8) as usize
}

fn event_count(bundle: &[u8]) -> usize
    requires { 512 ≤ length bundle.now }
    ensures { (result ≡ event_count bundle.now) × (result < 4294967296) }
{
    little::u32_at(bundle, 12) as usize
}

fn event_length(bundle: &[u8]) -> usize
    requires { 512 ≤ length bundle.now }
    ensures { (result ≡ event_length bundle.now) × (result < 1000000000000) }
{
    Event::SIZE * event_count(bundle)
}

fn text_blocks(bundle: &[u8]) -> usize
    requires { 512 ≤ length bundle.now }
    ensures { (result ≡ text_blocks bundle.now) × (result < 1000000000000) }
{
    blocks_for(TEXT_ROOM, text_length(bundle))
}

fn event_blocks(bundle: &[u8]) -> usize
    requires { 512 ≤ length bundle.now }
    ensures { (result ≡ event_blocks bundle.now) × (result < 1000000000000) }
{
    blocks_for(EVENT_ROOM, event_length(bundle))
}

// As many blocks as so many bytes need.
pub fn blocks_for(room: usize, bytes: usize) -> usize
    requires { (0 < room) × (room ≤ 500) × (bytes < 1000000000000) }
    ensures { result ≡ blocks_for room bytes }
{
    (bytes + (room - 1)) / room
}
