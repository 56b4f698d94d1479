// A block of a note bundle, and a run of blocks, written one behind the other.
#![tactic(auto)]

ghost use Rattle.std.specs.Prelude.{◌+◌, ◌-◌, ◌*◌, ◌≤◌, [], ◌∷◌, ◌++◌, ◌≡◌, length, take, drop};
ghost use Rattle.lent.specs.Fill.{zeros};
ghost use Rattle.lent.specs.Writer.{Writes};
ghost use Rattle.bundle_block.specs.Block.{little, check_of, block_of};
ghost use Rattle.bundle_run.specs.Run.{run_of};

use lent::Writer;
use little::{U8, U16, U32};

const PAYLOAD: usize = 500;

// The blocks from `start` up to `end`, of one kind, with up to `room` bytes of what is given each.
pub fn write_run(
    out: &mut Writer,
    edition: u32,
    kind: u8,
    room: usize,
    start: usize,
    end: usize,
    given: &[u8],
)
    requires { (start ≤ end) × (out.old.at + 512 * (end - start) ≤ length out.old.bytes.now) × (room ≤ 500) }
    ensures { Writes (run_of edition kind room start (end - start) given.now) out.old out.new }
{
    let mut from = 0;
    for index in start..end {
        let next = from + room.min(given.len() - from);
        write_block(out, edition, index, kind, &given[from..next]);
        from = next;
    }
}

// A block. Its check is taken of what stands there then.
pub fn write_block(out: &mut Writer, edition: u32, number: usize, kind: u8, payload: &[u8])
    requires { (out.old.at + 512 ≤ length out.old.bytes.now) × (length payload.now ≤ 500) }
    ensures { Writes (block_of edition number kind payload.now) out.old out.new }
{
    let at = out.at;
    put_words(out, edition, number, kind);
    put_payload(out, payload);
    let check = check_from(out, at);
    little::put(out, U32, check as usize);
}

// The check of what was written from a place on.
fn check_from(out: &Writer, from: usize) -> u32
    requires { (from ≤ out.now.at) × (out.now.at ≤ from + 508) × (out.now.at ≤ length out.now.bytes.now) }
    ensures { result ≡ check_of (take (out.now.at - from) (drop from out.now.bytes.now)) }
{
    bundle_block::check_of(&out.bytes[from..out.at])
}

// Edition, number, kind and the zero byte.
fn put_words(out: &mut Writer, edition: u32, number: usize, kind: u8)
    ensures { Writes (little 4 edition ++ little 2 number ++ little 1 kind ++ 0 ∷ []) out.old out.new }
{
    little::put(out, U32, edition as usize);
    little::put(out, U16, number);
    little::put(out, U8, kind as usize);
    out.put(0);
}

// The payload, and zeros where it is unused.
fn put_payload(out: &mut Writer, payload: &[u8])
    requires { (out.old.at + 500 ≤ length out.old.bytes.now) × (length payload.now ≤ 500) }
    ensures { Writes (payload.now ++ zeros (500 - length payload.now)) out.old out.new }
{
    out.put_all(payload);
    let end = out.at + (PAYLOAD - payload.len());
    lent::clear(&mut out.bytes[out.at..end], 0);
    out.at = end;
}
