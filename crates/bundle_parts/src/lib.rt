// The note bundle as it comes: in parts of any length, of which a block's rest is kept between two calls.
#![tactic(auto)]

ghost use Rattle.std.specs.Prelude.{ℕ, ◌<◌, true, false, List, ◌++◌, ◌⊎◌, ◌≡◌, length, take};
ghost use Rattle.lent.specs.Fill.{Filled, zeros};
ghost use Rattle.bundle_known.specs.Known.{whole_of, advance_of};
ghost use Rattle.bundle_parts.specs.Feed.{standing, stand_of, start_of, refused_at, kept, settled, feed_of, end_of};
ghost use Rattle.bundle_parts.specs.Late.{is_roomy};
ghost use Rattle.bundle_parts.specs.Private.{cleared_unless, TookMore, Finished};

use bundle_block::Refusal;
use bundle_known::Known;
use bundle_read::{Contents, LEAST_ROOM};
use bundle_run::BLOCK;
use lent::Writer;

// What is known, how many bytes of a block are held, whether a byte came behind the last block, and the answer; none is there while more is wanted.
#[derive(Clone, Copy)]
pub struct State {
    pub known: Known,
    pub held: usize,
    pub over: bool,
    pub progress: Option<Result<Contents, Refusal>>,
}

// A state between two calls, with a block's rest. C keeps it too (`NotepageReader`), so the rest and how much of it counts stand apart.
#[derive(Clone, Copy)]
pub struct Reader {
    pub state: State,
    pub rest: [u8; 512],
}

// Before the first call.
pub fn new() -> Reader
    ensures { (t e : List ℕ) → stand_of result t e ≡ start_of t e }
{
    Reader {
        state: bare(bundle_known::nothing(), false, None),
        rest: [0u8; 512],
    }
}

// A part of the bundle. Both buffers are lent at each call, as the call before left them.
pub fn feed(reader: Reader, part: &[u8], text: &mut [u8], events: &mut [u8]) -> Reader
    ensures { stand_of result text.new events.new ≡ feed_of (stand_of reader text.old events.old) part.now }
{
    let mut rest = reader.rest;
    let state = feed_state(reader.state, &mut rest, part, text, events);
    Reader { state, rest }
}

// The end: no part follows.
pub fn end(reader: Reader, text: &mut [u8], events: &mut [u8]) -> Reader
    ensures { stand_of result text.new events.new ≡ end_of (stand_of reader text.old events.old) }
{
    let rest = reader.rest;
    let state = end_state(reader.state, text, events);
    Reader { state, rest }
}

// The answer, or none while more is wanted.
pub fn so_far(reader: Reader) -> Option<Result<Contents, Refusal>>
    ensures { result ≡ reader.state.progress }
{
    reader.state.progress
}

// Nothing is held.
fn bare(known: Known, over: bool, progress: Option<Result<Contents, Refusal>>) -> State
    ensures { result ≡ record { known = known; held = 0; over = over; progress = progress } }
{
    State {
        known,
        held: 0,
        over,
        progress,
    }
}

fn feed_state(
    old: State,
    rest: &mut [u8; 512],
    part: &[u8],
    text: &mut [u8],
    events: &mut [u8],
) -> State
    requires { length rest.old ≡ 512 }
    ensures { standing result rest.new text.new events.new ≡ feed_of (standing old rest.old text.old events.old) part.now }
{
    let progress = old.progress;
    if progress.is_some() {
        return old;
    }
    if is_roomy(text.len(), events.len()) {
        return take_more(old, rest, part, text, events);
    }
    refuse(Refusal::Short, text, events)
}

fn end_state(state: State, text: &mut [u8], events: &mut [u8]) -> State
    ensures { (rest : List ℕ) → standing result rest text.new events.new ≡ end_of (standing state rest text.old events.old) }
{
    let progress = state.progress;
    if progress.is_some() {
        return state;
    }
    if is_roomy(text.len(), events.len()) {
        return finish(state.known, state.over, text, events);
    }
    refuse(Refusal::Short, text, events)
}

// The answer, where every block has come and no byte behind them.
fn finish(known: Known, over: bool, text: &mut [u8], events: &mut [u8]) -> State
    ensures { Finished known over text.old events.old text.new events.new result }
{
    if bundle_known::is_whole(known) & !over {
        let contents = Contents {
            text: known.text as usize,
            events: known.events as usize,
            edition: known.edition,
        };
        return bare(known, over, Some(Ok(contents)));
    }
    refuse(Refusal::Broken(0), text, events)
}

fn is_roomy(text: usize, events: usize) -> bool
    ensures { result ≡ is_roomy text events }
{
    (LEAST_ROOM <= text) & (LEAST_ROOM <= events)
}

// Both buffers zero, and the refusal.
fn refuse(refusal: Refusal, text: &mut [u8], events: &mut [u8]) -> State
    ensures { (rest : List ℕ) → standing result rest text.new events.new ≡ refused_at text.old events.old refusal }
{
    clear_both(text, events);
    bare(bundle_known::nothing(), false, Some(Err(refusal)))
}

// A part, and the rest before it, where no answer is there yet.
fn take_more(
    state: State,
    rest: &mut [u8; 512],
    part: &[u8],
    text: &mut [u8],
    events: &mut [u8],
) -> State
    requires { length rest.old ≡ 512 }
    ensures { TookMore state rest.old part.now text.old events.old rest.new text.new events.new result }
{
    let known = state.known;
    let over = state.over;
    let held = state.held.min(BLOCK - 1);
    if held == 0 {
        begin(known.begun, text, events);
        return take(known, over, rest, part, text, events);
    }
    if bundle_known::is_whole(known) {
        return bare(known, true, None);
    }
    join(known, over, rest, held, part, text, events)
}

// Before the first block, with nothing held, the buffers are cleared.
fn begin(begun: bool, text: &mut [u8], events: &mut [u8])
    ensures { (text.new ≡ cleared_unless begun text.old) × (events.new ≡ cleared_unless begun events.old) }
{
    if begun {
        return;
    }
    clear_both(text, events);
}

fn clear_both(text: &mut [u8], events: &mut [u8])
    ensures { (text.new ≡ zeros (length text.old)) × (events.new ≡ zeros (length events.old)) }
{
    lent::clear(text, 0);
    lent::clear(events, 0);
}

// The rest goes on by the part; once it is a whole block, the block and what follows are taken. The three buffers are passed as they are
// lent: a struct of them would be taken apart at each call.
fn join(
    known: Known,
    over: bool,
    rest: &mut [u8; 512],
    held: usize,
    part: &[u8],
    text: &mut [u8],
    events: &mut [u8],
) -> State
    requires { (held < 512) × (whole_of known ≡ false) × (length rest.old ≡ 512) }
    ensures { standing result rest.new text.new events.new ≡ settled over text.old events.old (advance_of known text.old events.old (take held rest.old ++ part.now)) }
{
    let end = append(rest, held, part);
    if end < BLOCK {
        return State {
            known,
            held: end,
            over,
            progress: None,
        };
    }
    let from = BLOCK - held;
    take_block(known, over, rest, &part[from..], text, events)
}

// The block that the rest has become, then what follows it.
fn take_block(
    known: Known,
    over: bool,
    rest: &mut [u8; 512],
    part: &[u8],
    text: &mut [u8],
    events: &mut [u8],
) -> State
    requires { (length rest.old ≡ 512) × (whole_of known ≡ false) }
    ensures { standing result rest.new text.new events.new ≡ settled over text.old events.old (advance_of known text.old events.old (rest.old ++ part.now)) }
{
    match bundle_known::advance(known, rest, text, events) {
        Err(r) => refuse(r, text, events),
        Ok(step) => take(step.known, over, rest, part, text, events),
    }
}

// Whole blocks are taken where they stand, and what is left of the part is kept.
fn take(
    known: Known,
    over: bool,
    rest: &mut [u8; 512],
    part: &[u8],
    text: &mut [u8],
    events: &mut [u8],
) -> State
    ensures { standing result rest.new text.new events.new ≡ settled over text.old events.old (advance_of known text.old events.old part.now) }
{
    match bundle_known::advance(known, part, text, events) {
        Err(r) => refuse(r, text, events),
        Ok(step) => keep(step.known, over, rest, &part[step.taken..]),
    }
}

// The rest goes on by a part, or by as much of it as fits. The place behind comes out.
fn append(rest: &mut [u8; 512], held: usize, part: &[u8]) -> usize
    ensures { Filled rest.old held part.now rest.new result }
{
    let mut whole = Writer {
        bytes: rest,
        at: held,
    };
    whole.put_all(part);
    whole.at
}

// Bytes behind the last block are not kept: that there are some is enough.
fn keep(known: Known, over: bool, rest: &mut [u8; 512], left: &[u8]) -> State
    requires { (whole_of known ≡ true) ⊎ (length left.now < 512) }
    ensures { (t e : List ℕ) → standing result rest.new t e ≡ kept over known t e left.now }
{
    if bundle_known::is_whole(known) {
        return bare(known, over | (0 < left.len()), None);
    }
    append(rest, 0, left);
    State {
        known,
        held: left.len(),
        over,
        progress: None,
    }
}
