// The answer of the call that takes a list of links, and what is asked of the list before anything is written: refusals 1, 2 and 3.
#![tactic(auto)]

ghost use Rattle.std.specs.Prelude.{position, ◌-◌, ◌≡◌, ◌++◌, length, take};
ghost use Rattle.lent.specs.Fill.{zeros};
ghost use Rattle.utf8.specs.Utf8.{inside};
ghost use Rattle.call_links_answer.specs.Links.{ordered};
ghost use Rattle.call_links_answer.specs.Listed.{refusal_number, refusal_place, number_of, value_of, taken_of, Refuses, Finishes};

// The most bytes that a text may have (RULES R8.1).
const MOST_TEXT: usize = 64000;

// Why nothing was written, with the index of the URL where it is one's fault.
#[derive(Clone, Copy)]
pub enum Refusal {
    // the text is too long, or the lengths are fewer than the URLs
    WrongSize,
    WrongEnd(usize),
    NotUtf8,
    Cut(usize),
    NoRoom(usize),
}

impl Refusal {
    // The number (RULES R7.1).
    pub fn number(self) -> u32
        ensures { result ≡ refusal_number self }
    {
        match self {
            Refusal::WrongSize => 1,
            Refusal::WrongEnd(_) => 1,
            Refusal::NotUtf8 => 2,
            Refusal::Cut(_) => 3,
            Refusal::NoRoom(_) => 9,
        }
    }

    // The place: the URL's index, or 0.
    pub fn place(self) -> usize
        ensures { result ≡ refusal_place self }
    {
        match self {
            Refusal::WrongSize => 0,
            Refusal::WrongEnd(k) => k,
            Refusal::NotUtf8 => 0,
            Refusal::Cut(k) => k,
            Refusal::NoRoom(k) => k,
        }
    }
}

// An answer's number (RULES R7.1).
pub fn number(r: Result<usize, Refusal>) -> u32
    ensures { result ≡ number_of r }
{
    match r {
        Ok(_) => 0,
        Err(refusal) => refusal.number(),
    }
}

// How many bytes all links have together, or a refusal's place.
pub fn value(r: Result<usize, Refusal>) -> usize
    ensures { result ≡ value_of r }
{
    match r {
        Ok(n) => n,
        Err(refusal) => refusal.place(),
    }
}

// Refusals 1, 2 and 3, each over the whole list.
pub fn take_list(text: &[u8], ends: &[u32], places: usize) -> Result<(), Refusal>
    ensures { result ≡ taken_of text.now ends.now places }
{
    if MOST_TEXT < text.len() {
        return Err(Refusal::WrongSize);
    }
    if places < ends.len() {
        return Err(Refusal::WrongSize);
    }
    let in_order = count_ordered(text.len(), ends);
    if in_order < ends.len() {
        return Err(Refusal::WrongEnd(in_order));
    }
    if !utf8::is_utf8(text) {
        return Err(Refusal::NotUtf8);
    }
    if let Some(k) = find_cut(text, ends) {
        return Err(Refusal::Cut(k));
    }
    Ok(())
}

// How many URLs, from the first on, end neither below the one before nor past the text.
fn count_ordered(size: usize, ends: &[u32]) -> usize
    ensures { result ≡ ordered size 0 ends.now }
{
    let mut before: usize = 0;
    for (i, end) in ends.iter().enumerate() {
        let end = *end as usize;
        if (end < before) | (size < end) {
            return i;
        }
        before = end;
    }
    ends.len()
}

// The first URL that ends inside a character.
fn find_cut(text: &[u8], ends: &[u32]) -> Option<usize>
    ensures { result ≡ position (λ e. inside text.now e) ends.now }
{
    ends.iter()
        .position(|end| utf8::is_inside(text, *end as usize))
}

// A refusal leaves nothing in either buffer.
pub fn refuse(
    out: &mut [u8],
    lengths: &mut [u32],
    r: Result<usize, Refusal>,
) -> Result<usize, Refusal>
    ensures { Refuses out.old lengths.old r out.new lengths.new result }
{
    lent::clear(out, 0);
    clear_lengths(lengths, 0);
    r
}

// The links were written up to the place `end`, and as many lengths as `count` says; zeros stand behind both.
pub fn finish(
    out: &mut [u8],
    lengths: &mut [u32],
    end: usize,
    count: usize,
) -> Result<usize, Refusal>
    ensures { Finishes out.old lengths.old end count out.new lengths.new result }
{
    lent::clear(out, end);
    clear_lengths(lengths, count);
    Ok(end)
}

// Zeros from a place on.
fn clear_lengths(lengths: &mut [u32], from: usize)
    ensures { lengths.new ≡ take from lengths.old ++ zeros (length lengths.old - from) }
{
    if from < lengths.len() {
        lengths[from..].fill(0);
    }
}
