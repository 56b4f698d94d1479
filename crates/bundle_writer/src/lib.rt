// The note bundle, written: refused first, and written only where all of it has room.
#![tactic(auto)]

ghost use Rattle.std.specs.Prelude.{◌+◌, ◌*◌, ◌/◌, ◌≤◌, ◌<◌, ◌++◌, ◌≡◌, length};
ghost use Rattle.lent.specs.Fill.{zeros};
ghost use Rattle.lent.specs.Writer.{Writes};
ghost use Rattle.bundle_block.specs.Block.{little, block_of};
ghost use Rattle.bundle_run.specs.Run.{run_of};
ghost use Rattle.bundle_read.specs.Bundle.{blocks_for, bundle_of};
ghost use Rattle.bundle_read.specs.Sizes.{most_text, most_events, record_size, text_room, event_room, header_kind};
ghost use Rattle.bundle_writer.specs.Packed.{number_of, value_of, right_lengths, HasPacked};

use bundle_read::{
    EVENT_KIND, EVENT_ROOM, HEADER_KIND, HEADER_USED, MOST_EVENTS, MOST_TEXT, TEXT_KIND, TEXT_ROOM,
};
use bundle_run::BLOCK;
use event::Event;
use lent::Writer;
use little::U32;

// Why no bundle was written.
#[derive(Clone, Copy)]
pub enum WriteRefusal {
    WrongLength,
    NoRoom,
}

// Writes the bundle of a text, events and an edition, and says its length. Neither text nor events are judged but for their lengths.
pub fn write(
    text: &[u8],
    events: &[u8],
    edition: u32,
    out: &mut [u8],
) -> Result<usize, WriteRefusal>
    ensures { HasPacked text.now events.now edition out.old out.new result }
{
    if !has_right_lengths(text.len(), events.len()) {
        return refuse(out, WriteRefusal::WrongLength);
    }
    let length = bundle_length(text.len(), events.len());
    if out.len() < length {
        return refuse(out, WriteRefusal::NoRoom);
    }
    let mut bundle = Writer { bytes: out, at: 0 };
    write_blocks(text, events, edition, &mut bundle);
    bundle.clear_rest();
    Ok(length)
}

// An answer's number (RULES R7.1).
pub fn number(p: Result<usize, WriteRefusal>) -> u32
    ensures { result ≡ number_of p }
{
    match p {
        Ok(_) => 0,
        Err(WriteRefusal::WrongLength) => 1,
        Err(WriteRefusal::NoRoom) => 9,
    }
}

// The length, or a refusal's place, which is 0.
pub fn value(p: Result<usize, WriteRefusal>) -> usize
    ensures { result ≡ value_of p }
{
    match p {
        Ok(n) => n,
        Err(_) => 0,
    }
}

// A refusal leaves nothing in the buffer.
fn refuse(out: &mut [u8], r: WriteRefusal) -> Result<usize, WriteRefusal>
    ensures { (result ≡ Err r) × (out.new ≡ zeros (length out.old)) }
{
    lent::clear(out, 0);
    Err(r)
}

fn has_right_lengths(text: usize, events: usize) -> bool
    ensures { result ≡ right_lengths text events }
{
    (text <= MOST_TEXT) & (events <= Event::SIZE * MOST_EVENTS) & (events % Event::SIZE == 0)
}

fn bundle_length(text: usize, events: usize) -> usize
    requires { (text ≤ most_text) × (events ≤ record_size * most_events) }
    ensures { result ≡ 512 * (1 + blocks_for text_room text + blocks_for event_room events) }
{
    let blocks = 1
        + bundle_read::blocks_for(TEXT_ROOM, text)
        + bundle_read::blocks_for(EVENT_ROOM, events);
    BLOCK * blocks
}

// Header, text blocks and event blocks.
fn write_blocks(text: &[u8], events: &[u8], edition: u32, out: &mut Writer)
    requires { (length text.now ≤ most_text) × (length events.now ≤ record_size * most_events) × (out.old.at + 512 * (1 + blocks_for text_room (length text.now) + blocks_for event_room (length events.now)) ≤ length out.old.bytes.now) }
    ensures { Writes (bundle_of text.now events.now edition) out.old out.new }
{
    write_header(out, edition, text.len(), events.len());
    let middle = write_part(out, edition, TEXT_KIND, TEXT_ROOM, 1, text);
    write_part(out, edition, EVENT_KIND, EVENT_ROOM, middle, events);
}

// Block 0 says how long the text is, and how many events there are.
fn write_header(out: &mut Writer, edition: u32, text: usize, events: usize)
    requires { out.old.at + 512 ≤ length out.old.bytes.now }
    ensures { Writes (block_of edition 0 header_kind (little 4 text ++ little 4 (events / record_size))) out.old out.new }
{
    let mut payload = [0u8; HEADER_USED];
    let mut words = Writer {
        bytes: &mut payload,
        at: 0,
    };
    little::put(&mut words, U32, text);
    little::put(&mut words, U32, events / Event::SIZE);
    bundle_block_writer::write_block(out, edition, 0, HEADER_KIND, &payload);
}

// As many blocks as are needed, from `start` on; the answer is the number behind the last.
fn write_part(
    out: &mut Writer,
    edition: u32,
    kind: u8,
    room: usize,
    start: usize,
    given: &[u8],
) -> usize
    requires { (0 < room) × (room ≤ 500) × (length given.now < 1000000000000) × (out.old.at + 512 * blocks_for room (length given.now) ≤ length out.old.bytes.now) × (start < 1000000000000) }
    ensures { (result ≡ start + blocks_for room (length given.now)) × Writes (run_of edition kind room start (blocks_for room (length given.now)) given.now) out.old out.new }
{
    let end = start + bundle_read::blocks_for(room, given.len());
    bundle_block_writer::write_run(out, edition, kind, room, start, end, given);
    end
}
