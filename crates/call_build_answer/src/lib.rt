// A build's answer: its number (RULES R7.1), refusals 1 to 7, and every lent byte once the answer is known. The run is in `call_build`.
#![tactic(auto)]

ghost use Rattle.std.specs.Prelude.{◌≡◌};
ghost use Rattle.call_build_answer.specs.Built.{number_of, value_of, checked_of, Leaves};
ghost use Rattle.call_build_answer.specs.Rendered.{built_of, kept_of};
ghost use Rattle.call_build_answer.specs.Private.{Clears};

use event::EventIndex;
use run_answer::Full;

// Why there is no page: refusals 1 to 7; or 8 and 9, with the event after which the work bytes or the output have no room.
#[derive(Clone, Copy)]
pub enum Refusal {
    Checked(check_list::Refusal),
    WorkFull(EventIndex),
    PageFull(EventIndex),
}

impl Refusal {
    // The number (RULES R7.1).
    pub fn number(self) -> u32
        ensures { result ≡ number_of (Err self) }
    {
        match self {
            Refusal::Checked(c) => c.number(),
            Refusal::WorkFull(_) => 8,
            Refusal::PageFull(_) => 9,
        }
    }

    // The place.
    pub fn place(self) -> usize
        ensures { result ≡ value_of (Err self) }
    {
        match self {
            Refusal::Checked(c) => c.place(),
            Refusal::WorkFull(i) => i.0,
            Refusal::PageFull(i) => i.0,
        }
    }
}

// The fewest work bytes: three regions of 16,384.
pub const LEAST_WORK: usize = regions::WORK;

// An answer's number (RULES R7.1).
pub fn number(b: Result<usize, Refusal>) -> u32
    ensures { result ≡ number_of b }
{
    match b {
        Ok(_) => 0,
        Err(refusal) => refusal.number(),
    }
}

// The page's length, or a refusal's place.
pub fn value(b: Result<usize, Refusal>) -> usize
    ensures { result ≡ value_of b }
{
    match b {
        Ok(n) => n,
        Err(refusal) => refusal.place(),
    }
}

// Refusals 1 to 7: too few work bytes are a wrong length as well.
pub fn check(text: &[u8], events: &[u8], work: usize) -> Result<(), check_list::Refusal>
    ensures { result ≡ checked_of text.now events.now work }
{
    if work < LEAST_WORK {
        return Err(check_list::Refusal::WrongLength);
    }
    check_list::check(text, events)
}

// A page of this length stays, and nothing behind it.
fn page(size: usize, out: &mut [u8], work: &mut [u8]) -> Result<usize, Refusal>
    ensures { Leaves (Ok size) size out.old work.old out.new work.new result }
{
    clear(out, size, work);
    Ok(size)
}

// A refusal leaves nothing in either buffer.
pub fn refuse(b: Result<usize, Refusal>, out: &mut [u8], work: &mut [u8]) -> Result<usize, Refusal>
    ensures { Leaves b 0 out.old work.old out.new work.new result }
{
    clear(out, 0, work);
    b
}

// Each answer of the run, with what it leaves in the buffers.
pub fn finish(r: Result<usize, Full>, out: &mut [u8], work: &mut [u8]) -> Result<usize, Refusal>
    ensures { Leaves (built_of r) (kept_of r) out.old work.old out.new work.new result }
{
    match r {
        Ok(length) => page(length, out, work),
        Err(Full::Work(i)) => refuse(Err(Refusal::WorkFull(i)), out, work),
        Err(Full::Page(i)) => refuse(Err(Refusal::PageFull(i)), out, work),
    }
}

// Zeros from a place of the output on, and in every work byte.
fn clear(out: &mut [u8], from: usize, work: &mut [u8])
    ensures { Clears from out.old work.old out.new work.new }
{
    lent::clear(out, from);
    wipe::wipe(work);
}
