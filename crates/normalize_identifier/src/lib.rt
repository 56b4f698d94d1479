// Label identity: written into a lent buffer, or compared byte by byte without writing it.
#![tactic(auto)]

ghost use Rattle.std.specs.Prelude.{◌≡◌, ◌+◌, drop};
ghost use Rattle.lent.specs.Bytes.{same};
ghost use Rattle.lent.specs.Writer.{Writes};
ghost use Rattle.normalize_identifier.specs.Identity.{at_start, blank, blanks, folded, identity_of, Spells};
ghost use Rattle.normalize_identifier.specs.Left.{left};

use lent::Writer;

// A place in a label, and whether a byte of its identity stands before it.
#[derive(Clone, Copy)]
pub struct Cursor {
    pub at: usize,
    pub begun: bool,
}

// The bytes of a label's identity that are left, one by one. Nothing of it is written.
#[derive(Clone, Copy)]
pub struct Identity<'a> {
    label: &'a [u8],
    cursor: Cursor,
}

impl<'a> Identity<'a> {
    // All of them.
    pub fn new(label: &'a [u8]) -> Identity<'a>
        ensures { left result ≡ identity_of label.now }
    {
        Identity {
            label,
            cursor: start(),
        }
    }
}

impl Iterator for Identity<'_> {
    ghost use Rattle.std.specs.Iterator.{YieldsFirst, item_count};

    type Item = u8;

    ghost next_gives = { YieldsFirst left };

    ghost remaining = { item_count left };

    fn next(&mut self) -> Option<u8> {
        let (b, cursor) = next(self.label, self.cursor)?;
        self.cursor = cursor;
        Some(b)
    }
}

// No `match`: as one, each label takes a fifth more instructions.
#[tactic(auto, unfolding(crate::specs::Identity::blank))]
fn is_blank(b: u8) -> bool
    ensures { result ≡ blank b }
{
    b == b'\t' || b == b'\n' || b == b'\r' || b == b' '
}

fn fold(b: u8) -> u8
    ensures { result ≡ folded b }
{
    b.to_ascii_uppercase()
}

// The place behind the blanks that stand at `from`.
fn skip(label: &[u8], from: usize) -> usize
    ensures { result ≡ from + blanks (drop from label.now) }
{
    for i in from..label.len() {
        if !is_blank(label[i]) {
            return i;
        }
    }
    from.max(label.len())
}

// One step: a space where blanks were passed behind a byte, else the next byte, upper-cased.
pub fn next(label: &[u8], c: Cursor) -> Option<(u8, Cursor)>
    ensures { Spells label.now c result }
{
    let at = skip(label, c.at);
    if label.len() <= at {
        return None;
    }
    if c.begun && c.at < at {
        return Some((b' ', Cursor { at, begun: true }));
    }
    Some((
        fold(label[at]),
        Cursor {
            at: at + 1,
            begun: true,
        },
    ))
}

// Before a label's first byte.
pub fn start() -> Cursor
    ensures { result ≡ at_start }
{
    Cursor {
        at: 0,
        begun: false,
    }
}

// Appends the identity of `value`.
pub fn normalize_identifier(value: &[u8], out: &mut Writer)
    ensures { Writes (identity_of value.now) out.old out.new }
{
    for b in Identity::new(value) {
        out.put(b);
    }
}

// Whether two labels have one identity.
pub fn same_identity(a: &[u8], b: &[u8]) -> bool
    ensures { result ≡ same (identity_of a.now) (identity_of b.now) }
{
    Identity::new(a).eq(Identity::new(b))
}
