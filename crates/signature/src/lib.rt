// Signatures of label identities, and the search for a label in a table, which compares only labels of one signature.
#![tactic(auto)]

ghost use Rattle.std.specs.Prelude.{◌≡◌, ◌-◌, take, drop};
ghost use Rattle.normalize_identifier.specs.Identity.{identity_of};
ghost use Rattle.signature.specs.Signature.{low_product, high_product, turn, mix, signature_of};
ghost use Rattle.signature.specs.Signed.{Differs, RowDiffers, Finds};

use normalize_identifier::Identity;

// What labels of one identity share. Labels of two identities that share it are not made by hand: it has 128 bits, and no step of it is linear.
#[derive(Clone, Copy, PartialEq, Eq)]
pub struct Signature {
    pub first: usize,
    pub second: usize,
}

// The columns of a table of labels: their places in a text, and their signatures.
#[derive(Clone, Copy)]
pub struct Columns<'a> {
    pub starts: &'a [usize],
    pub ends: &'a [usize],
    pub firsts: &'a [usize],
    pub seconds: &'a [usize],
}

fn low_product(x: usize) -> usize
    ensures { result ≡ low_product x }
{
    x % 0x1_0000_0000 * 0x9E37_79B1
}

fn high_product(x: usize) -> usize
    ensures { result ≡ high_product x }
{
    x / 0x1_0000_0000 * 0x85EB_CA77
}

// Each word is changed by a product of half of the other. Nothing is lost: the old words can be had from the new.
fn turned(s: Signature) -> Signature
    ensures { result ≡ turn s }
{
    let first = s.second ^ low_product(s.first);
    let second = s.first ^ high_product(first);
    Signature { first, second }
}

// One byte more of a signature.
fn mixed(s: Signature, b: u8) -> Signature
    ensures { result ≡ mix s b }
{
    turned(turned(Signature {
        first: s.first ^ b as usize,
        second: s.second,
    }))
}

// The signature of a label's identity. Called, and not written into its callers: there each byte takes a quarter more instructions.
#[inline(never)]
pub fn sign(label: &[u8]) -> Signature
    ensures { result ≡ signature_of (identity_of label.now) }
{
    let before = Signature {
        first: 0x243F_6A88_85A3_08D3,
        second: 0x1319_8A2E_0370_7344,
    };
    Identity::new(label).fold(before, mixed)
}

// Whether two words are another signature, so that their label is another.
pub fn differs(first: usize, second: usize, s: Signature) -> bool
    ensures { Differs first second s result }
{
    Signature { first, second } != s
}

// Whether row k has another signature.
fn row_differs(columns: Columns, k: usize, s: Signature) -> bool
    ensures { RowDiffers columns.entry.firsts.now columns.entry.seconds.now k s result }
{
    match (columns.firsts.get(k), columns.seconds.get(k)) {
        (Some(first), Some(second)) => differs(*first, *second, s),
        _ => false,
    }
}

// The text from a place to another, as much of it as there is.
pub fn part(text: &[u8], from: usize, to: usize) -> &[u8]
    ensures { result.now ≡ take (to - from) (drop from text.now) }
{
    let end = to.min(text.len());
    text.get(from..end).unwrap_or(&[])
}

// The first of n labels, the parts of `text` from each start to its end, that has the identity of `label`.
// Loops that a label and an index leave, and no chain: docs/RULES.md, R18.4, names this form here.
pub fn find(text: &[u8], columns: Columns, n: usize, label: &[u8]) -> Option<usize>
    ensures { Finds text.now columns.entry.starts.now columns.entry.ends.now columns.entry.firsts.now columns.entry.seconds.now n label.now result }
{
    let s = sign(label);
    let rows = n.min(columns.starts.len()).min(columns.ends.len());
    let mut k: usize = 0;
    'search: loop {
        if rows <= k {
            break None;
        }
        if row_differs(columns, k, s) {
            k += 1;
            continue;
        }
        let entry = part(text, columns.starts[k], columns.ends[k]);
        let mut ours = Identity::new(entry);
        let mut theirs = Identity::new(label);
        'same: loop {
            match (ours.next(), theirs.next()) {
                (Some(x), Some(y)) => {
                    if x != y {
                        break 'same;
                    }
                }
                (None, None) => break 'search Some(k),
                _ => break 'same,
            }
        }
        k += 1;
    }
}
