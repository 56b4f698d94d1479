// Character references: what stands for a number or a name, in UTF-8.
#![tactic(auto)]

ghost use Rattle.std.specs.Prelude.{◌≡◌, ◌≤◌, true};
ghost use Rattle.lent.specs.Writer.{Writes};
ghost use Rattle.utf8.specs.Utf8.{tail};
ghost use Rattle.character_reference.specs.Written.{written_of};
ghost use Rattle.lent.specs.Bytes.{same};
ghost use Rattle.character_reference.specs.Reference.{is_replaced, code_of, digit_value, numeral_of, lookup, named_of, value_of, reference_of, reference_for, is_some, or_nothing};
ghost use Rattle.character_reference.specs.Table.{order_of, name_at, Lies, is_packed_from, unpacked_from, is_ascending};

use lent::Writer;
use std::cmp::Ordering;

mod table;

// ---- a character, written in UTF-8

// Appends the character with the code `c`, or U+FFFD where there is none. Not by `char::encode_utf8`: a surrogate, which is no
// `char`, has three bytes here.
pub fn put_char(out: &mut Writer, c: u32)
    ensures { Writes (written_of c) out.old out.new }
{
    match c {
        0..0x80 => out.put(c as u8),
        0x80..0x800 => out.put_all(&[(0xC0 + c / 64) as u8, tail_of(c)]),
        0x800..0x10000 => {
            out.put_all(&[(0xE0 + c / 4096) as u8, tail_of(c / 64), tail_of(c)]);
        }
        0x10000..0x110000 => {
            out.put_all(&[
                (0xF0 + c / 262144) as u8,
                tail_of(c / 4096),
                tail_of(c / 64),
                tail_of(c),
            ]);
        }
        _ => out.put_all(&[0xEF, 0xBF, 0xBD]),
    }
}

// A byte that goes on a character, with the lowest six bits of `n`.
fn tail_of(n: u32) -> u8
    ensures { result ≡ tail n }
{
    (0x80 + n % 64) as u8
}

// ---- references

// The newest marker before a value: 8, 9 or 10.
#[derive(Clone, Copy)]
pub enum Marker {
    Named,
    Decimal,
    Hexadecimal,
}

// The names option: `lang` and `rang` stand for U+2329 and U+232A in HTML 4.01, for U+27E8 and U+27E9 in HTML5.
#[derive(Clone, Copy)]
pub enum Names {
    Html4,
    Html5,
}

// Whether a number gives U+FFFD.
fn is_replaced(c: u32) -> bool
    ensures { result ≡ is_replaced c }
{
    match c {
        0..=0x8 | 0xB | 0xE..=0x1F | 0x7F..=0x9F | 0xD800..=0xDFFF => true,
        0..=0x10FFFF => false,
        _ => true,
    }
}

// The code point that a number gives.
fn code_of(c: u32) -> u32
    ensures { result ≡ code_of c }
{
    if is_replaced(c) {
        return 0xFFFD;
    }
    c
}

// What a digit of base 10 or 16 is worth; 16 for any other byte. Not `char::to_digit`, which asks for a base above 1.
fn digit_value(b: u8) -> u32
    ensures { result ≡ digit_value b }
{
    match b {
        b'0'..=b'9' => (b - b'0') as u32,
        b'A'..=b'F' => (b - 55) as u32,
        b'a'..=b'f' => (b - 87) as u32,
        _ => 16,
    }
}

// What one to `most` digits of a base stand for.
fn numeral_of(s: &[u8], base: u32, most: usize) -> Option<u32>
    requires { (base ≤ 16) × (most ≤ 7) }
    ensures { result ≡ numeral_of base most s.now }
{
    if s.len() < 1 {
        return None;
    }
    if most < s.len() {
        return None;
    }
    let mut n: u32 = 0;
    for b in s {
        let v = digit_value(*b);
        if base <= v {
            return None;
        }
        n = n * base + v;
    }
    Some(code_of(n))
}

// Where a name comes beside the name `k` of a packed table.
fn order_at(s: &[u8], packed: &[u8], starts: &[u16], k: usize) -> Ordering
    requires { Lies packed.now starts.now k }
    ensures { result ≡ order_of s.now (name_at packed.now starts.now k) }
{
    let from = starts[k] as usize;
    let to = starts[k + 1] as usize;
    s.cmp(&packed[from..to])
}

// The entry of a packed table that has this name, by halving: it lies from `low` up to `high`. Not by `binary_search_by`, whose
// closure sees one start: a name ends at the next. Packed, since the compiler builds a table anew at each look-up.
fn look_up(s: &[u8], packed: &[u8], starts: &[u16], codes: &[u16]) -> Option<u32>
    requires packed { is_packed_from packed.now starts.now 0 codes.now ≡ true }
    requires ascending { is_ascending (unpacked_from packed.now starts.now 0 codes.now) ≡ true }
    ensures { result ≡ lookup (unpacked_from packed.now starts.now 0 codes.now) s.now }
{
    let mut low: usize = 0;
    let mut high = codes.len();
    while low < high {
        let k = low + (high - low) / 2;
        match order_at(s, packed, starts, k) {
            Ordering::Equal => return Some(u32::from(codes[k])),
            Ordering::Less => high = k,
            Ordering::Greater => low = k + 1,
        }
    }
    None
}

// What a name stands for in HTML5.
fn named_5(s: &[u8]) -> Option<u32>
    ensures { result ≡ named_of Names.Html5 s.now }
{
    look_up(s, &table::NAMES, &table::STARTS, &table::CODES)
}

// And in HTML 4.01, which has two of them otherwise.
fn named_4(s: &[u8]) -> Option<u32>
    ensures { result ≡ named_of Names.Html4 s.now }
{
    if s == b"lang".as_slice() {
        return Some(0x2329);
    }
    if s == b"rang".as_slice() {
        return Some(0x232A);
    }
    named_5(s)
}

// What a name stands for.
fn named_of(names: Names, s: &[u8]) -> Option<u32>
    ensures { result ≡ named_of names s.now }
{
    match names {
        Names::Html4 => named_4(s),
        Names::Html5 => named_5(s),
    }
}

// The code point of a value, or that the slice breaks its rule.
pub fn value_of(names: Names, marker: Marker, s: &[u8]) -> Option<u32>
    ensures { result ≡ value_of names marker s.now }
{
    match marker {
        Marker::Named => named_of(names, s),
        Marker::Decimal => numeral_of(s, 10, 7),
        Marker::Hexadecimal => numeral_of(s, 16, 6),
    }
}

// Whether a value keeps its slice's rule: both options have the same names.
pub fn is_reference(marker: Marker, s: &[u8]) -> bool
    ensures { result ≡ is_some (reference_of marker s.now) }
{
    value_of(Names::Html5, marker, s).is_some()
}

// Appends what a value stands for; nothing where it breaks its slice's rule.
pub fn put_reference(out: &mut Writer, names: Names, marker: Marker, s: &[u8])
    ensures { Writes (or_nothing (reference_for names marker s.now)) out.old out.new }
{
    if let Some(c) = value_of(names, marker, s) {
        put_char(out, c);
    }
}
