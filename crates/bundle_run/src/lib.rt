// A run of blocks of one kind: the verdict on it, and what it holds.
#![tactic(auto)]

ghost use Rattle.std.specs.Prelude.{◌+◌, ◌-◌, ◌*◌, ◌≤◌, ◌++◌, ◌≡◌, length};
ghost use Rattle.lent.specs.Fill.{zeros};
ghost use Rattle.lent.specs.Writer.{Writes};
ghost use Rattle.bundle_run.specs.Run.{judge_run, held_in};

use bundle_block::Refusal;
use lent::Writer;

pub const BLOCK: usize = 512;

// The blocks from `start` up to `end`, of one kind, that use `used` bytes, at most `room` of them each. The numbers are no struct: the
// two readers and the writer each have others of them at hand.
pub fn judge_run(
    blocks: &[u8],
    edition: u32,
    kind: u8,
    room: usize,
    start: usize,
    end: usize,
    used: usize,
) -> Result<(), Refusal>
    requires { (start ≤ end) × (512 * (end - start) ≤ length blocks.now) × (room ≤ 500) }
    ensures { result ≡ judge_run edition kind room start (end - start) used blocks.now }
{
    let mut left = used;
    for index in start..end {
        let at = BLOCK * (index - start);
        let here = room.min(left);
        bundle_block::judge_block(&blocks[at..at + BLOCK], edition, index, kind, here)?;
        left -= here;
    }
    Ok(())
}

// What a run of blocks holds, and zeros behind.
pub fn fill_run(blocks: &[u8], room: usize, count: usize, used: usize, out: &mut [u8])
    requires { (512 * count ≤ length blocks.now) × (room ≤ 500) × (used ≤ room * count) × (used ≤ length out.old) }
    ensures { out.new ≡ held_in room count used blocks.now ++ zeros (length out.old - used) }
{
    let mut held = Writer { bytes: out, at: 0 };
    copy_run(blocks, room, count, used, &mut held);
    held.clear_rest();
}

// What a run of blocks holds, appended.
pub fn copy_run(blocks: &[u8], room: usize, count: usize, used: usize, out: &mut Writer)
    requires { (512 * count ≤ length blocks.now) × (room ≤ 500) }
    ensures { Writes (held_in room count used blocks.now) out.old out.new }
{
    let mut left = used;
    for i in 0..count {
        let here = room.min(left);
        let from = BLOCK * i + 8;
        out.put_all(&blocks[from..from + here]);
        left -= here;
    }
}
