// One block of a note bundle: its words, and the verdict on it.
#![tactic(auto)]

ghost use Rattle.std.specs.Prelude.{ℕ, ◌+◌, ◌*◌, ◌%◌, ◌≤◌, ◌<◌, ◌≡◌, length, get_or};
ghost use Rattle.lent.specs.Bytes.{all};
ghost use Rattle.bundle_block.specs.Block.{weighed, check_of, is_zero, demand as demanded, judge_check, judge_edition, judge_order, judge_block};
ghost use Rattle.bundle_block.specs.Lanes.{sum_of, added};

// A row of the check has sixteen lanes, a byte each. Loops over lanes end at this constant, so that the compiler makes vector code of them.
const ROW: usize = 16;

// A part has so few rows that the sums in a lane fit 16 bits.
const PART: usize = 16 * ROW;

// A buffer that is too short, or what is wrong with a block, and which one.
#[derive(Clone, Copy)]
pub enum Refusal {
    Short,
    Broken(usize),
    BadCheck(usize),
    OtherEdition(usize),
}

// One block: 11, 12, 10. All three are asked, since a good block needs them all.
pub fn judge_block(
    block: &[u8],
    edition: u32,
    index: usize,
    kind: u8,
    used: usize,
) -> Result<(), Refusal>
    requires { (length block.now ≡ 512) × (used ≤ 500) }
    ensures { result ≡ judge_block edition index kind used block.now }
{
    let right = judge_check(block, index);
    let same = judge_edition(block, edition, index);
    let due = judge_order(block, index, kind, used);
    right.and(same.and(due))
}

// 11.
fn judge_check(block: &[u8], index: usize) -> Result<(), Refusal>
    requires { length block.now ≡ 512 }
    ensures { result ≡ judge_check index block.now }
{
    let right = little::u32_at(block, 508) == check_of(&block[0..508]);
    demand(right, Refusal::BadCheck(index))
}

// 12.
fn judge_edition(block: &[u8], edition: u32, index: usize) -> Result<(), Refusal>
    requires { length block.now ≡ 512 }
    ensures { result ≡ judge_edition edition index block.now }
{
    let same = little::u32_at(block, 0) == edition;
    demand(same, Refusal::OtherEdition(index))
}

// 10.
fn judge_order(block: &[u8], index: usize, kind: u8, used: usize) -> Result<(), Refusal>
    requires { (length block.now ≡ 512) × (used ≤ 500) }
    ensures { result ≡ judge_order index kind used block.now }
{
    let number = little::u16_at(block, 4) as usize;
    let unused = is_zero(&block[8 + used..508]);
    demand(
        (number == index) & (block[6] == kind) & (block[7] == 0) & unused,
        Refusal::Broken(index),
    )
}

pub fn demand(holds: bool, otherwise: Refusal) -> Result<(), Refusal>
    ensures { result ≡ demanded holds otherwise }
{
    if holds { Ok(()) } else { Err(otherwise) }
}

// The sum of (place + 1) times byte: of the whole rows, and of the bytes behind them one by one.
pub fn check_of(front: &[u8]) -> u32
    requires { length front.now ≤ 508 }
    ensures { result ≡ check_of front.now }
{
    let whole = front.len() / ROW * ROW;
    let mut sum = weigh_parts(&front[0..whole]);
    for place in whole..front.len() {
        sum += (place as u32 + 1) * u32::from(front[place]);
    }
    sum
}

// Whole rows, a part at a time.
fn weigh_parts(rows: &[u8]) -> u32
    requires { (length rows.now ≤ 508) × (length rows.now % 16 ≡ 0) }
    ensures { result ≡ check_of rows.now }
{
    let mut sum: u32 = 0;
    let mut place: u32 = 0;
    for part in rows.chunks(PART) {
        sum += weigh_rows(part, place);
        place += part.len() as u32;
    }
    sum
}

// The rows of a part, whose first byte stands at `place`. A byte's weight is that of its lane in the first row, and ROW for each row before
// its own. So no byte is multiplied: from the last row to the first bytes are added up, in `once` each once, and in `by_row` once for each
// row before its own. Of numbers of 16 bits the compiler adds eight at a time; its products of 32 bits are dear.
fn weigh_rows(rows: &[u8], place: u32) -> u32
    requires { (length rows.now % 16 ≡ 0) × (length rows.now ≤ 256) × (place + length rows.now ≤ 508) }
    ensures { result ≡ weighed place rows.now }
{
    let mut once = [0u16; ROW];
    let mut by_row = [0u16; ROW];
    for row in rows.rchunks(ROW) {
        add_lanes(&mut by_row, &once);
        add_row(&mut once, row);
    }
    weigh_lanes(&once, place) + ROW as u32 * sum_lanes(&by_row)
}

// The lanes weighed as a row whose first byte stands at `place`.
fn weigh_lanes(lanes: &[u16; ROW], place: u32) -> u32
    requires { (length lanes.now ≡ 16) × (place ≤ 508) × (weighed place lanes.now < 4294967296) }
    ensures { result ≡ weighed place lanes.now }
{
    let mut sum: u32 = 0;
    let mut weight = place;
    for lane in 0..ROW {
        weight += 1;
        sum += weight * u32::from(lanes[lane]);
    }
    sum
}

fn sum_lanes(lanes: &[u16; ROW]) -> u32
    requires { (length lanes.now ≡ 16) × (sum_of lanes.now < 4294967296) }
    ensures { result ≡ sum_of lanes.now }
{
    let mut sum: u32 = 0;
    for n in lanes {
        sum += u32::from(*n);
    }
    sum
}

fn add_row(lanes: &mut [u16; ROW], row: &[u8])
    requires { (length row.now ≡ 16) × ((k : ℕ) → get_or lanes.old k 0 + get_or row.now k 0 < 65536) }
    ensures { lanes.new ≡ added lanes.old row.now }
{
    for lane in 0..ROW {
        lanes[lane] += u16::from(row[lane]);
    }
}

fn add_lanes(lanes: &mut [u16; ROW], more: &[u16; ROW])
    requires { (length more.now ≡ 16) × ((k : ℕ) → get_or lanes.old k 0 + get_or more.now k 0 < 65536) }
    ensures { lanes.new ≡ added lanes.old more.now }
{
    for lane in 0..ROW {
        lanes[lane] += more[lane];
    }
}

// Whether all bytes are zero. It looks at each, so that the compiler can look at many at a time.
fn is_zero(part: &[u8]) -> bool
    ensures { result ≡ all is_zero part.now }
{
    let mut zero = true;
    for b in part {
        zero &= *b == 0;
    }
    zero
}
