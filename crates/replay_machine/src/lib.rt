// The machine of a sync log: what is staged and what is current for each note, in two tables that the caller lends.
#![tactic(auto)]

ghost use Rattle.std.specs.Prelude.{◌*◌, ◌≤◌, ◌<◌, ◌≡◌, length};
ghost use Rattle.replay_machine.specs.Machine.{counted, showed, stage as staged, swap as swapped, act as acted};
ghost use Rattle.replay_machine.specs.Records.{Few, state_of, came_by, takes, take_records};

use replay_record::{Action, Record, SIZE};

pub const NOTES: usize = 256;

// How many shows there were, how many differ, and how many records stand before the first that does.
#[derive(Clone, Copy)]
pub struct Count {
    pub shows: usize,
    pub differ: usize,
    pub first: usize,
}

// The counts, and whether the zeros have begun.
#[derive(Clone, Copy)]
pub struct Tally {
    pub count: Count,
    pub ended: bool,
}

// So many records; none where one breaks a rule. No log has 2,031,616 of them.
pub fn take_records(
    records: &[u8],
    number: usize,
    tally: Tally,
    staged: &mut [u32],
    current: &mut [u32],
) -> Option<Tally>
    requires { (16 * number ≤ length records.now) × (number ≤ 31) × (length staged.old ≡ 256) × (length current.old ≡ 256) × Few 2031585 tally.count }
    ensures { came_by result staged.new current.new ≡ take_records number tally.ended (state_of tally.count staged.old current.old) records.now }
{
    let mut came = tally;
    for i in 0..number {
        let at = SIZE * i;
        let record = replay_record::read(&records[at..at + SIZE]);
        came = take(record, came, staged, current)?;
    }
    Some(came)
}

// One record.
fn take(record: Record, tally: Tally, staged: &mut [u32], current: &mut [u32]) -> Option<Tally>
    requires { (length staged.old ≡ 256) × (length current.old ≡ 256) × Few 2031616 tally.count }
    ensures { came_by result staged.new current.new ≡ takes «record» tally.ended (state_of tally.count staged.old current.old) }
{
    match record {
        Record::Faulty => None,
        Record::End => Some(Tally {
            ended: true,
            ..tally
        }),
        Record::Does(action) => {
            if tally.ended {
                return None;
            }
            Some(Tally {
                count: act(action, tally.count, staged, current),
                ended: false,
            })
        }
    }
}

fn act(action: Action, count: Count, staged: &mut [u32], current: &mut [u32]) -> Count
    requires { (length staged.old ≡ 256) × (length current.old ≡ 256) × Few 2031616 count }
    ensures { state_of result staged.new current.new ≡ acted action (state_of count staged.old current.old) }
{
    match action {
        Action::Stage(note, edition) => {
            staged[usize::from(note)] = edition;
            counted_on(count)
        }
        Action::Swap(note) => {
            swap(usize::from(note), staged, current);
            counted_on(count)
        }
        Action::Show(note, edition) => {
            let right = current[usize::from(note)] == edition;
            counted_on(show(right, count))
        }
    }
}

fn swap(note: usize, staged: &mut [u32], current: &mut [u32])
    requires { (length staged.old ≡ 256) × (length current.old ≡ 256) × (note < 256) }
    ensures { (count : Count) → state_of count staged.new current.new ≡ swapped note (state_of count staged.old current.old) }
{
    let edition = staged[note];
    match edition {
        0 => {}
        _ => {
            staged[note] = 0;
            current[note] = edition;
        }
    }
}

fn show(right: bool, count: Count) -> Count
    requires { Few 2031616 count }
    ensures { result ≡ showed right count }
{
    let shows = count.shows + 1;
    if right {
        return Count { shows, ..count };
    }
    Count {
        shows,
        differ: count.differ + 1,
        ..count
    }
}

// A record more before the first that differs.
fn counted_on(count: Count) -> Count
    requires { count.first ≤ 2031616 }
    ensures { result ≡ counted count }
{
    match count.differ {
        0 => Count {
            first: count.first + 1,
            ..count
        },
        _ => count,
    }
}
