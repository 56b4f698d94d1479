// What is known of a note bundle while it comes, and what more bytes of it add: block 0, the text blocks, the event blocks.
#![tactic(auto)]

ghost use Rattle.std.specs.Prelude.{◌-◌, ◌/◌, ◌≤◌, ◌<◌, min, ◌≡◌, length};
ghost use Rattle.bundle_read.specs.Bundle.{blocks_for, event_count};
ghost use Rattle.bundle_known.specs.Known.{unknown, said_in, index_of, whole_of};
ghost use Rattle.bundle_known.specs.Step.{Advanced, RanAll, RanEvents, Ran};

use bundle_block::Refusal;
use bundle_read::{EVENT_KIND, TEXT_KIND};
use bundle_run::BLOCK;
use event::Event;
use lent::Writer;

// What a block of either kind can hold.
const ROOM: usize = bundle_read::TEXT_ROOM;

const RECORD: u32 = Event::SIZE as u32;

// Whether block 0 has come, what it says (lengths in bytes), and how much of text and events has come. Lengths are 32 bits
// wide, so that no sum of theirs can overflow, whatever a caller makes of them. A flag and no Option: the numbers of a state that C hands
// over (`notepage_feed_bundle`) go back to it where the flag is off too.
#[derive(Clone, Copy)]
pub struct Known {
    pub begun: bool,
    pub edition: u32,
    pub text: u32,
    pub events: u32,
    pub text_came: u32,
    pub events_came: u32,
}

// What is known behind some bytes, and how many of them were taken.
#[derive(Clone, Copy)]
pub struct Step {
    pub known: Known,
    pub taken: usize,
}

// How many bytes of the text, or of the events, have come, and how many bytes of the blocks were taken.
#[derive(Clone, Copy)]
pub struct Run {
    pub came: u32,
    pub taken: usize,
}

// Before the first block.
pub fn nothing() -> Known
    ensures { result ≡ unknown }
{
    Known {
        begun: false,
        edition: 0,
        text: 0,
        events: 0,
        text_came: 0,
        events_came: 0,
    }
}

// Whether every block that the header asks for has come.
pub fn is_whole(k: Known) -> bool
    ensures { result ≡ whole_of k }
{
    k.begun & (k.text <= k.text_came) & (k.events <= k.events_came)
}

// Takes as many of the bytes as are whole blocks that are due, and writes what they hold into the buffers.
pub fn advance(k: Known, bytes: &[u8], text: &mut [u8], events: &mut [u8]) -> Result<Step, Refusal>
    ensures { Advanced k text.old events.old bytes.now text.new events.new result }
{
    if k.begun {
        return take_runs(k, bytes, 0, text, events);
    }
    if bytes.len() < BLOCK {
        return Ok(Step { known: k, taken: 0 });
    }
    bundle_read::judge_header(bytes)?;
    take_runs(said(bytes), bytes, BLOCK, text, events)
}

// What block 0 says.
fn said(bytes: &[u8]) -> Known
    requires { (512 ≤ length bytes.now) × (event_count bytes.now ≤ 3200) }
    ensures { result ≡ said_in bytes.now }
{
    Known {
        begun: true,
        edition: little::u32_at(bytes, 0),
        text: little::u32_at(bytes, 8),
        events: RECORD * little::u32_at(bytes, 12),
        text_came: 0,
        events_came: 0,
    }
}

// The bytes from a place on: the text blocks, then the event blocks.
fn take_runs(
    k: Known,
    bytes: &[u8],
    from: usize,
    text: &mut [u8],
    events: &mut [u8],
) -> Result<Step, Refusal>
    requires { from ≤ length bytes.now }
    ensures { RanAll k from text.old events.old bytes.now text.new events.new result }
{
    let run = take_run(
        k.edition,
        TEXT_KIND,
        index(k),
        k.text_came,
        k.text,
        &bytes[from..],
        text,
    )?;
    let known = Known {
        text_came: run.came,
        ..k
    };
    take_events(known, bytes, from + run.taken, events)
}

fn take_events(k: Known, bytes: &[u8], from: usize, events: &mut [u8]) -> Result<Step, Refusal>
    requires { from ≤ length bytes.now }
    ensures { RanEvents k from events.old bytes.now events.new result }
{
    let run = take_run(
        k.edition,
        EVENT_KIND,
        index(k),
        k.events_came,
        k.events,
        &bytes[from..],
        events,
    )?;
    let known = Known {
        events_came: run.came,
        ..k
    };
    Ok(Step {
        known,
        taken: from + run.taken,
    })
}

// The blocks of one kind that are there and due, the first of which has the number `index`: judged where they stand, then copied.
fn take_run(
    edition: u32,
    kind: u8,
    index: usize,
    came: u32,
    total: u32,
    bytes: &[u8],
    out: &mut [u8],
) -> Result<Run, Refusal>
    requires { index < 1000000000 }
    ensures { Ran edition kind index came total out.old bytes.now out.new result }
{
    let left = total.saturating_sub(came) as usize;
    let count = due(bytes.len(), came, total);
    bundle_run::judge_run(bytes, edition, kind, ROOM, index, index + count, left)?;
    let mut held = Writer {
        bytes: out,
        at: came as usize,
    };
    bundle_run::copy_run(bytes, ROOM, count, left, &mut held);
    Ok(Run {
        came: came + (ROOM * count).min(left) as u32,
        taken: BLOCK * count,
    })
}

// How many blocks of so many bytes are whole and due.
fn due(bytes: usize, came: u32, total: u32) -> usize
    ensures { (result ≡ min (bytes / 512) (blocks_for 500 (total - came))) × (result < 10000000) }
{
    let left = total.saturating_sub(came);
    (bytes / BLOCK).min(blocks_for(left))
}

// The number of the block that comes next.
fn index(k: Known) -> usize
    ensures { (result ≡ index_of k) × (result < 1000000000) }
{
    1 + blocks_for(k.text_came) + blocks_for(k.events_came)
}

// As many blocks as so many bytes need.
fn blocks_for(bytes: u32) -> usize
    ensures { (result ≡ blocks_for 500 bytes) × (result < 10000000) }
{
    bundle_read::blocks_for(ROOM, bytes as usize)
}
