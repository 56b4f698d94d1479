// URLs percent-encoded, as `normalize` of `sanitize_uri.rs`, and encoded for HTML in the same walk over the bytes.
#![tactic(auto)]

ghost use Rattle.std.specs.Prelude.{◌+◌, ◌-◌, ◌≤◌, ◌≡◌, length, drop};
ghost use Rattle.lent.specs.Writer.{Writes};
ghost use Rattle.encode.specs.Encode.{encode_of};
ghost use Rattle.url_run.specs.Private.{marks_of, word_of};
ghost use Rattle.normalize_uri.specs.Url.{normalize_of};
ghost use Rattle.normalize_uri.specs.Private.{part_of};

use encode_byte::Escaping;
use lent::Writer;

// Appends the URL, percent-encoded alone.
pub fn normalize(value: &[u8], out: &mut Writer)
    ensures { Writes (normalize_of value.now) out.old out.new }
{
    put_url(value, Escaping::Off, out);
}

// The same, and then encoded for HTML as `escaping` says: blocks of 16 bytes while two more are there to be looked at. Where
// many are left, a window of 64 is tried first; one that is no run is not tried again before its end.
// The URL and a place go down side by side, and not as `&value[i..]`: with slices a URL of 64 bytes takes half as many
// instructions again.
pub fn put_url(value: &[u8], escaping: Escaping, out: &mut Writer)
    ensures { Writes (encode_of escaping (normalize_of value.now)) out.old out.new }
{
    let mut i = 0;
    let mut next = 0;
    // Counted by hand: how far a step goes depends on the bytes read.
    while 18 <= value.len() - i {
        if next <= i {
            if 128 <= value.len() - i {
                if url_run::is_run(value, i) {
                    out.put_exact::<64>(&value[i..i + 64]);
                    i += 64;
                    continue;
                }
                next = i + 64;
            }
        }
        put_block(value, i, escaping, out);
        i += 16;
    }
    put_tail(value, i, escaping, out);
}

// The last bytes: eight, if two more are there to be looked at, and the rest one by one.
fn put_tail(value: &[u8], i: usize, escaping: Escaping, out: &mut Writer)
    requires { i ≤ length value.now }
    ensures { Writes (encode_of escaping (normalize_of (drop i value.now))) out.old out.new }
{
    if value.len() - i < 10 {
        put_part(value, i, value.len(), escaping, out);
        return;
    }
    let mut marks = [0u8; 8];
    url_run::mark_all(value, i, &mut marks);
    let word = url_run::word(&marks);
    put_eight(value, i, word, escaping, out);
    put_part(value, i + 8, value.len(), escaping, out);
}

// Sixteen bytes: copied at once where none has a mark.
fn put_block(value: &[u8], i: usize, escaping: Escaping, out: &mut Writer)
    requires { i + 18 ≤ length value.now }
    ensures { Writes (encode_of escaping (part_of 16 (drop i value.now))) out.old out.new }
{
    let mut marks = [0u8; 16];
    url_run::mark_all(value, i, &mut marks);
    let (eights, _) = marks.as_chunks::<8>();
    let low = url_run::word(&eights[0]);
    let high = url_run::word(&eights[1]);
    put_halves(value, i, low, high, escaping, out);
}

// By the marks of each eight.
fn put_halves(value: &[u8], i: usize, low: u64, high: u64, escaping: Escaping, out: &mut Writer)
    requires { (i + 16 ≤ length value.now) × (low ≡ word_of (marks_of 8 (drop i value.now))) × (high ≡ word_of (marks_of 8 (drop (i + 8) value.now))) }
    ensures { Writes (encode_of escaping (part_of 16 (drop i value.now))) out.old out.new }
{
    if (low == 0) & (high == 0) {
        out.put_exact::<16>(&value[i..i + 16]);
        return;
    }
    put_eight(value, i, low, escaping, out);
    put_eight(value, i + 8, high, escaping, out);
}

// Eight bytes with their marks: the run before the first mark at once, the rest one by one.
fn put_eight(value: &[u8], i: usize, word: u64, escaping: Escaping, out: &mut Writer)
    requires { (i + 8 ≤ length value.now) × (word ≡ word_of (marks_of 8 (drop i value.now))) }
    ensures { Writes (encode_of escaping (part_of 8 (drop i value.now))) out.old out.new }
{
    if word == 0 {
        out.put_ahead(&value[i..i + 8], 8);
        return;
    }
    let k = url_run::run(word);
    out.put_ahead(&value[i..i + 8], k);
    put_rest(value, i + k, i + 8, word >> (8 * k), escaping, out);
}

// The bytes from `from` to `to`, one by one, by their marks.
fn put_rest(value: &[u8], from: usize, to: usize, word: u64, escaping: Escaping, out: &mut Writer)
    requires { (from ≤ to) × (to ≤ length value.now) × (word ≡ word_of (marks_of (to - from) (drop from value.now))) }
    ensures { Writes (encode_of escaping (part_of (to - from) (drop from value.now))) out.old out.new }
{
    let mut marks = word;
    for i in from..to {
        let mark = marks % 2;
        marks = marks / 256;
        if mark == 0 {
            out.put(value[i]);
            continue;
        }
        url_byte::put_marked_byte(value[i], escaping, out);
    }
}

// The bytes from `from` to `to`, one by one: a `%` looks at what follows it in the whole URL.
fn put_part(value: &[u8], from: usize, to: usize, escaping: Escaping, out: &mut Writer)
    requires { (from ≤ to) × (to ≤ length value.now) }
    ensures { Writes (encode_of escaping (part_of (to - from) (drop from value.now))) out.old out.new }
{
    for i in from..to {
        url_byte::put_url_byte(value, i, escaping, out);
    }
}
