// The answer of a call that writes a text, and every byte of the buffer lent to it: refusals 1, 2 and 9.
#![tactic(auto)]

ghost use Rattle.std.specs.Prelude.{◌≡◌, ℕ, List};
ghost use Rattle.std.specs.Fn.{FnOnceReturnsAtMut};
ghost use Rattle.lent.specs.declared.Writer.{Writer};
ghost use Rattle.lent.specs.Writer.{Writes};
ghost use Rattle.call_text_answer.specs.Written.{refusal_number, number_of, value_of, taken_of, Tried, Wrote};

use lent::Writer;

// The most bytes that a text may have (RULES R8.1).
const MOST_TEXT: usize = 64000;

// Why no text was written.
#[derive(Clone, Copy)]
pub enum Refusal {
    TooLong,
    NotUtf8,
    NoRoom,
}

impl Refusal {
    // The number (RULES R7.1).
    pub fn number(self) -> u32
        ensures { result ≡ refusal_number self }
    {
        match self {
            Refusal::TooLong => 1,
            Refusal::NotUtf8 => 2,
            Refusal::NoRoom => 9,
        }
    }
}

// An answer's number (RULES R7.1).
pub fn number(w: Result<usize, Refusal>) -> u32
    ensures { result ≡ number_of w }
{
    match w {
        Ok(_) => 0,
        Err(refusal) => refusal.number(),
    }
}

// The length, or a refusal's place, which is 0.
pub fn value(w: Result<usize, Refusal>) -> usize
    ensures { result ≡ value_of w }
{
    w.unwrap_or(0)
}

// A call that writes a text: refused, or what `append` appends to the buffer, with zeros behind it.
pub fn write<F: FnOnce(&mut Writer)>(
    text: &[u8],
    out: &mut [u8],
    append: F,
) -> Result<usize, Refusal>
    requires { F.IsAlwaysCallable append }
    ensures { (made : List ℕ)
        → ((v w : Writer) → FnOnceReturnsAtMut F.FnOnce append v tt w → Writes made v w)
        → Wrote text.now made out.old out.new result }
{
    let written = try_write(text, out, append);
    lent::clear(out, written.unwrap_or(0));
    written
}

// The length of what `append` appends, where the text is taken and it has room.
fn try_write<F: FnOnce(&mut Writer)>(
    text: &[u8],
    out: &mut [u8],
    append: F,
) -> Result<usize, Refusal>
    requires { F.IsAlwaysCallable append }
    ensures { (made : List ℕ)
        → ((v w : Writer) → FnOnceReturnsAtMut F.FnOnce append v tt w → Writes made v w)
        → Tried text.now made out.old out.new result }
{
    take_text(text)?;
    let mut written = Writer { bytes: out, at: 0 };
    append(&mut written);
    let end = written.at;
    if out.len() < end {
        return Err(Refusal::NoRoom);
    }
    Ok(end)
}

// Refusals 1 and 2.
pub fn take_text(text: &[u8]) -> Result<(), Refusal>
    ensures { result ≡ taken_of text.now }
{
    if MOST_TEXT < text.len() {
        return Err(Refusal::TooLong);
    }
    if utf8::is_utf8(text) {
        return Ok(());
    }
    Err(Refusal::NotUtf8)
}
