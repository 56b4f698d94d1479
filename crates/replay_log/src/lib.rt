// A sync log: its blocks judged in order and replayed, whole or as they come.
#![tactic(auto)]

ghost use Rattle.std.specs.Prelude.{◌%◌, ◌≤◌, [], ◌≡◌, length};
ghost use Rattle.lent.specs.Fill.{zeros};
ghost use Rattle.replay_machine.specs.Records.{Few, state_of, take_records};
ghost use Rattle.replay_log.specs.Log.{in_block};
ghost use Rattle.replay_log.specs.Call.{number_of, value_of, differ_of, first_of, HasReplayed};
ghost use Rattle.replay_log.specs.Stream.{course_by, Within, TookBlock, TookBlocks, first_place, Behind, Gone, Steady, Took, answer_by, Finished};

use bundle_block::Refusal;
use bundle_run::BLOCK;
use replay_machine::{Count, Tally};

const KIND: u8 = 4;

const RECORDS: usize = 31;

const USED: usize = RECORDS * replay_record::SIZE;

// The edition of block 0, the number of the next block, and the tally so far.
#[derive(Clone, Copy)]
pub struct Place {
    pub edition: u32,
    pub block: usize,
    pub tally: Tally,
}

// What is known of a log while it comes: nothing has come, blocks have come, or one was refused. Stays our own enum: it has three answers.
#[derive(Clone, Copy)]
pub enum Reader {
    Empty,
    Going(Place),
    Stopped(Refusal),
}

// Which edition each console should have shown: how many shows there were, how many differ, and the index of the first record that does;
// or why the log is refused.
pub fn replay(log: &[u8]) -> Result<Count, Refusal>
    ensures { HasReplayed log.now result }
{
    let mut staged = [0u32; 256];
    let mut current = [0u32; 256];
    finish(begin(), log, &mut staged, &mut current)
}

// Before the first block. Both tables are zero then.
pub fn begin() -> Reader
    ensures { Behind [] (zeros 256) (zeros 256) result × Steady result }
{
    Reader::Empty
}

// Whole blocks more.
pub fn take(reader: Reader, blocks: &[u8], staged: &mut [u32], current: &mut [u32]) -> Reader
    requires { (length blocks.now % 512 ≡ 0) × (length staged.old ≡ 256) × (length current.old ≡ 256) × Steady reader }
    ensures { Took reader staged.old current.old blocks.now staged.new current.new result }
{
    match reader {
        Reader::Stopped(_) => reader,
        Reader::Going(place) => go(place, blocks, staged, current),
        Reader::Empty => {
            if blocks.len() < BLOCK {
                return reader;
            }
            go(first_place(blocks), blocks, staged, current)
        }
    }
}

// The rest of the log, and the answer.
pub fn finish(
    reader: Reader,
    rest: &[u8],
    staged: &mut [u32],
    current: &mut [u32],
) -> Result<Count, Refusal>
    requires { (length staged.old ≡ 256) × (length current.old ≡ 256) × Steady reader }
    ensures { Finished reader staged.old current.old rest.now result }
{
    let odd = rest.len() % BLOCK;
    if 0 < odd {
        return Err(Refusal::Broken(0));
    }
    answered(take(reader, rest, staged, current))
}

// An answer's number (RULES R7.1).
pub fn number(a: Result<Count, Refusal>) -> u32
    ensures { result ≡ number_of a }
{
    match a {
        Ok(_) => 0,
        Err(r) => bundle_read::refusal_number(r),
    }
}

// How many shows there were, or the refusal's place.
pub fn value(a: Result<Count, Refusal>) -> usize
    ensures { result ≡ value_of a }
{
    match a {
        Ok(count) => count.shows,
        Err(r) => bundle_read::refusal_place(r),
    }
}

// How many shows differ.
pub fn differ(a: Result<Count, Refusal>) -> usize
    ensures { result ≡ differ_of a }
{
    match a {
        Ok(count) => count.differ,
        Err(_) => 0,
    }
}

// The index of the first record that differs.
pub fn first(a: Result<Count, Refusal>) -> usize
    ensures { result ≡ first_of a }
{
    match a {
        Ok(count) => count.first,
        Err(_) => 0,
    }
}

// What is known at a log's end.
fn answered(reader: Reader) -> Result<Count, Refusal>
    ensures { result ≡ answer_by reader }
{
    match reader {
        Reader::Empty => Err(Refusal::Broken(0)),
        Reader::Going(place) => Ok(place.tally.count),
        Reader::Stopped(r) => Err(r),
    }
}

// Before block 0, whose edition the others are held to.
fn first_place(blocks: &[u8]) -> Place
    requires { 512 ≤ length blocks.now }
    ensures { result ≡ first_place blocks.now }
{
    Place {
        edition: little::u32_at(blocks, 0),
        block: 0,
        tally: Tally {
            count: Count {
                shows: 0,
                differ: 0,
                first: 0,
            },
            ended: false,
        },
    }
}

// Blocks from a place on.
fn go(place: Place, blocks: &[u8], staged: &mut [u32], current: &mut [u32]) -> Reader
    requires { (length blocks.now % 512 ≡ 0) × (length staged.old ≡ 256) × (length current.old ≡ 256) × Within place.block place.tally.count }
    ensures { Gone place staged.old current.old blocks.now staged.new current.new result }
{
    let run = take_blocks(
        blocks,
        place.edition,
        place.block,
        place.tally,
        staged,
        current,
    );
    match run {
        Err(r) => Reader::Stopped(r),
        Ok(tally) => Reader::Going(Place {
            block: place.block + blocks.len() / BLOCK,
            tally,
            ..place
        }),
    }
}

fn take_blocks(
    blocks: &[u8],
    edition: u32,
    index: usize,
    tally: Tally,
    staged: &mut [u32],
    current: &mut [u32],
) -> Result<Tally, Refusal>
    requires { (length staged.old ≡ 256) × (length current.old ≡ 256) × Within index tally.count }
    ensures { TookBlocks edition index tally staged.old current.old blocks.now staged.new current.new result }
{
    let number = blocks.len() / BLOCK;
    let mut came = tally;
    for i in 0..number {
        let at = BLOCK * i;
        came = take_block(
            &blocks[at..at + BLOCK],
            edition,
            index + i,
            came,
            staged,
            current,
        )?;
    }
    Ok(came)
}

// One block: 11, 12, 10, then its records.
fn take_block(
    block: &[u8],
    edition: u32,
    index: usize,
    tally: Tally,
    staged: &mut [u32],
    current: &mut [u32],
) -> Result<Tally, Refusal>
    requires { (length block.now ≡ 512) × (length staged.old ≡ 256) × (length current.old ≡ 256) × Within index tally.count }
    ensures { TookBlock edition index tally staged.old current.old block.now staged.new current.new result }
{
    bundle_block::judge_block(block, edition, index, KIND, USED)?;
    take_payload(&block[8..508], index, tally, staged, current)
}

fn take_payload(
    payload: &[u8],
    index: usize,
    tally: Tally,
    staged: &mut [u32],
    current: &mut [u32],
) -> Result<Tally, Refusal>
    requires { (length payload.now ≡ 500) × (length staged.old ≡ 256) × (length current.old ≡ 256) × Few 2031585 tally.count }
    ensures { course_by result staged.new current.new ≡ in_block index (take_records 31 tally.ended (state_of tally.count staged.old current.old) payload.now) }
{
    let came = replay_machine::take_records(payload, RECORDS, tally, staged, current);
    came.ok_or(Refusal::Broken(index))
}
