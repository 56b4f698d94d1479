// UTF-8 by RFC 3629: whether a text is valid, and whether a place of it is inside a character.
#![tactic(auto)]

ghost use Rattle.std.specs.Prelude.{◌≡◌, ◌+◌, ◌≤◌, length, take, drop};
ghost use Rattle.utf8.specs.Table.{after_first, next, is_whole, length_of};
ghost use Rattle.utf8.specs.Wanted.{second_from, second_to};
ghost use Rattle.utf8.specs.Utf8.{is_utf8, inside};
ghost use Rattle.utf8.specs.Private.{ascii_run, bits_of};

// ---- a byte at a time: what is due next

// What is due next: a first byte; `left` more bytes of a character, the next of them from lo to hi; or nothing mends it.
#[derive(Clone, Copy)]
pub enum Due {
    First,
    More { left: u8, lo: u8, hi: u8 },
    Wrong,
}

// A character's length by the count of its first byte's leading one bits, 0, 2, 3 or 4 of them; 0 for any other byte, as `length_of`
// has it.
pub fn char_len(b: u8) -> usize
    ensures { result ≡ length_of b }
{
    let ones = u8::leading_zeros(255 - b);
    if ones == 0 {
        return 1;
    }
    if ones == 1 {
        return 0;
    }
    if 4 < ones {
        return 0;
    }
    ones as usize
}

// What a first byte leaves due.
pub fn after_first(b: u8) -> Due
    ensures { result ≡ after_first b }
{
    if b < 0x80 {
        return Due::First;
    }
    // C0 and C1 begin only overlong forms
    if b < 0xC2 {
        return Due::Wrong;
    }
    if 0xF4 < b {
        return Due::Wrong;
    }
    Due::More {
        left: (char_len(b) - 1) as u8,
        lo: second_from(b),
        hi: second_to(b),
    }
}

// The least second byte: below A0 behind E0, and below 90 behind F0, a form is overlong.
fn second_from(b: u8) -> u8
    ensures { result ≡ second_from b }
{
    if b == 0xE0 {
        return 0xA0;
    }
    if b == 0xF0 {
        return 0x90;
    }
    0x80
}

// The greatest second byte: above 9F behind ED stand surrogates, and above 8F behind F4 codes past 10FFFF.
fn second_to(b: u8) -> u8
    ensures { result ≡ second_to b }
{
    if b == 0xED {
        return 0x9F;
    }
    if b == 0xF4 {
        return 0x8F;
    }
    0xBF
}

// What is due behind the byte b.
pub fn after(due: Due, b: u8) -> Due
    ensures { result ≡ next due b }
{
    match due {
        Due::First => after_first(b),
        Due::More { left, lo, hi } => {
            if b < lo {
                return Due::Wrong;
            }
            if hi < b {
                return Due::Wrong;
            }
            if left < 2 {
                return Due::First;
            }
            Due::More {
                left: left - 1,
                lo: 0x80,
                hi: 0xBF,
            }
        }
        Due::Wrong => Due::Wrong,
    }
}

// Whether no character is left unfinished.
pub fn is_whole(due: Due) -> bool
    ensures { result ≡ is_whole due }
{
    match due {
        Due::First => true,
        Due::More { .. } => false,
        Due::Wrong => false,
    }
}

// ---- a whole text

// Whether a text is UTF-8. Its place is counted by hand, since runs of ASCII bytes are skipped.
pub fn is_utf8(s: &[u8]) -> bool
    ensures { result ≡ is_utf8 s.now }
{
    let mut i = ascii_to(s, 0);
    let mut due = Due::First;
    while i < s.len() {
        due = after(due, s[i]);
        i += 1;
        match due {
            Due::First => {
                i = ascii_to(s, i);
                continue;
            }
            Due::More { .. } => {
                continue;
            }
            Due::Wrong => {
                return false;
            }
        }
    }
    is_whole(due)
}

// The first place from `from` on that holds no ASCII byte, or the length.
fn ascii_to(s: &[u8], from: usize) -> usize
    ensures { result ≡ from + ascii_run (drop from s.now) }
{
    if s.len() <= from {
        return from;
    }
    // a character that is not ASCII is often followed by another
    if 0x7F < s[from] {
        return from;
    }
    let start = ascii_blocks(s, from);
    for at in start..s.len() {
        if 0x7F < s[at] {
            return at;
        }
    }
    s.len()
}

// The same, as far as whole blocks of 16 bytes reach. The place is counted by hand, since it is the answer.
fn ascii_blocks(s: &[u8], from: usize) -> usize
    ensures { result + ascii_run (drop result s.now) ≡ from + ascii_run (drop from s.now) }
{
    let mut at = from;
    while at < s.len() {
        if s.len() - at < 16 {
            return at;
        }
        if 0x7F < block_bits(s, at) {
            return at;
        }
        at += 16;
    }
    at
}

// All bits set in a block. No branch leaves the loop, so that it compiles to a vector.
fn block_bits(s: &[u8], i: usize) -> u8
    requires { i + 16 ≤ length s.now }
    ensures { result ≡ bits_of 0 (take 16 (drop i s.now)) }
{
    let block = &s[i..i + 16];
    let mut bits: u8 = 0;
    for b in block {
        bits |= *b;
    }
    bits
}

// Whether the place i is inside a character.
pub fn is_inside(s: &[u8], i: usize) -> bool
    ensures { result ≡ inside s.now i }
{
    if s.len() <= i {
        return false;
    }
    let b = s[i];
    if b < 0x80 {
        return false;
    }
    b <= 0xBF
}
