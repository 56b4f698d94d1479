// The call that percent-encodes a URL and says how many characters it visited. It answers on all inputs, says every byte of the buffer
// lent to it, and demands nothing of its caller.
#![tactic(auto)]

ghost use Rattle.std.specs.Prelude.{◌≡◌};
ghost use Rattle.call_normalize.specs.Normalized.{number_of, value_of, visits_in, HasNormalized};

use call_text_answer::{Refusal, write};

// A URL that was written: its length, and how many characters were visited.
#[derive(Clone, Copy)]
pub struct Url {
    pub length: usize,
    pub visits: usize,
}

// An answer's number (RULES R7.1).
pub fn number(n: Result<Url, Refusal>) -> u32
    ensures { result ≡ number_of n }
{
    match n {
        Ok(_) => 0,
        Err(refusal) => refusal.number(),
    }
}

// The length, or a refusal's place, which is 0.
pub fn value(n: Result<Url, Refusal>) -> usize
    ensures { result ≡ value_of n }
{
    match n {
        Ok(url) => url.length,
        Err(_) => 0,
    }
}

// The visits, of a refusal none.
pub fn visits(n: Result<Url, Refusal>) -> usize
    ensures { result ≡ visits_in n }
{
    match n {
        Ok(url) => url.visits,
        Err(_) => 0,
    }
}

// Percent-encodes a URL.
pub fn normalize(url: &[u8], out: &mut [u8]) -> Result<Url, Refusal>
    ensures { HasNormalized url.now out.old out.new result }
{
    let length = write(url, out, |w| normalize_uri::normalize(url, w))?;
    let visits = normalize_visits::count_visits(url);
    Ok(Url { length, visits })
}
