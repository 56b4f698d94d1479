// Zeros in a whole lent buffer, where most of it is zero already.
#![tactic(auto)]

ghost use Rattle.std.specs.Prelude.{◌≡◌, length};
ghost use Rattle.lent.specs.Bytes.{any};
ghost use Rattle.lent.specs.Fill.{zeros};
ghost use Rattle.wipe.specs.Set.{is_set};

// A part that is looked at at once.
const PART: usize = 16384;

// Zeros everywhere. A part that is zero already is only read, as most of a work buffer is: it was wiped after the call before.
pub fn wipe(out: &mut [u8])
    ensures { out.new ≡ zeros (length out.old) }
{
    // By places: behind a `chunks_mut` a proof knows the slice's length alone.
    let parts = out.len() / PART;
    for k in 0..parts {
        wipe_part(&mut out[PART * k..PART * k + PART]);
    }
    lent::clear(out, PART * parts);
}

fn wipe_part(out: &mut [u8])
    ensures { out.new ≡ zeros (length out.old) }
{
    if !has_any(out) {
        return;
    }
    lent::clear(out, 0);
}

// Whether a byte is not zero. It looks at each, so that the compiler can look at many at once.
fn has_any(s: &[u8]) -> bool
    ensures { result ≡ any is_set s.now }
{
    let mut found: u8 = 0;
    for b in s {
        found |= *b;
    }
    found != 0
}
