// The newest capture taken off and written: to the page, or behind the capture below it, where its bytes stand already.
#![tactic(auto)]

ghost use Rattle.std.specs.Prelude.{[], ◌∷◌, ◌++◌, ◌≡◌, ◌+◌, ◌≤◌, ◌<◌, length, if◌then◌else◌};
ghost use Rattle.lent.specs.Fill.{fill, Filled};
ghost use Rattle.state_buffers.specs.Stand.{Resumes};
ghost use Rattle.state_resume.specs.Written.{around, code_in};
ghost use Rattle.state_resume.specs.Private.{part, Within, Grown, Packed, Cut, all_spaces, opens_pipe};

use state_buffers::Buffers;

// Takes the newest capture off and writes it between two texts.
pub fn resume(
    b: Buffers,
    captures: &mut [u8],
    starts: &[usize],
    out: &mut [u8],
    before: &[u8],
    after: &[u8],
) -> Buffers
    ensures { Resumes (around before.now after.now) b starts.now captures.old out.old result captures.new out.new }
{
    let from = b.start;
    let to = b.end;
    if to < from {
        return b;
    }
    if captures.len() < to {
        return b;
    }
    let mut r = state_buffers::drop(b, starts);
    if r.depth == 0 {
        let at = lent::put_all(out, r.page, before);
        let behind = lent::put_all(out, at, &captures[from..to]);
        r.page = lent::put_all(out, behind, after);
        return r;
    }
    let end = insert(captures, from, to, before);
    r.end = lent::put_all(captures, end, after);
    r
}

// Takes code text off: in a table its `\|` are `|`; a space goes at each end where both ends have one and not all are spaces.
pub fn resume_code(
    b: Buffers,
    captures: &mut [u8],
    starts: &[usize],
    out: &mut [u8],
    in_table: bool,
) -> Buffers
    ensures { Resumes (code_in in_table) b starts.now captures.old out.old result captures.new out.new }
{
    let from = b.start;
    let to = b.end;
    if to < from {
        return b;
    }
    if captures.len() < to {
        return b;
    }
    let mut r = state_buffers::drop(b, starts);
    let end = pack(captures, from, from, to, in_table);
    let n = cut(captures, from, end);
    let first = from + n;
    let last = end - n;
    if r.depth == 0 {
        r.page = lent::put_all(out, r.page, &captures[first..last]);
        return r;
    }
    r.end = pack(captures, from, first, last, false);
    r
}

// ---- a text before

// Puts `s` before the bytes from one place up to another, which move up. The place behind them comes out.
fn insert(w: &mut [u8], from: usize, to: usize, s: &[u8]) -> usize
    requires { Within w.old from to }
    ensures { Grown w.old from (s.now ++ part w.old from to) w.new result }
{
    let n = s.len();
    if w.len() - to < n {
        return w.len() + 1;
    }
    shift_up(w, from, to, n);
    lent::put_all(w, from, s);
    to + n
}

// Moves bytes up, the last one first.
fn shift_up(w: &mut [u8], from: usize, to: usize, n: usize)
    requires { (from ≤ to) × (to + n ≤ length w.old) }
    ensures { w.new ≡ fill w.old (from + n) (part w.old from to) }
{
    for k in (from..to).rev() {
        w[k + n] = w[k];
    }
}

// ---- code text

// Moves bytes down to `at`, the first one first; with `pipes` each `\|` becomes `|`. The place behind them comes out.
fn pack(w: &mut [u8], at: usize, from: usize, to: usize, pipes: bool) -> usize
    requires { (at ≤ from) × Within w.old from to }
    ensures { Packed pipes w.old at from to w.new result }
{
    let mut r = at;
    for i in from..to {
        let gone = pipes & opens_pipe(w, i, to);
        let x = w[i];
        r = keep(w, r, x, gone);
    }
    r
}

fn opens_pipe(w: &[u8], i: usize, to: usize) -> bool
    requires { (i < to) × (to ≤ length w.now) }
    ensures { result ≡ opens_pipe (part w.now i to) }
{
    if to - i < 2 {
        return false;
    }
    (w[i] == b'\\') & (w[i + 1] == b'|')
}

fn keep(w: &mut [u8], at: usize, b: u8, gone: bool) -> usize
    ensures { Filled w.old at (if gone then [] else b ∷ []) w.new result }
{
    if gone {
        return at;
    }
    lent::put(w, at, b)
}

// How many spaces go at each end.
fn cut(w: &[u8], from: usize, to: usize) -> usize
    requires { Within w.now from to }
    ensures { Cut w.now from to result }
{
    if to <= from {
        return 0;
    }
    if w[from] != b' ' {
        return 0;
    }
    if w[to - 1] != b' ' {
        return 0;
    }
    if all_spaces(w, from, to) {
        return 0;
    }
    1
}

fn all_spaces(w: &[u8], from: usize, to: usize) -> bool
    requires { Within w.now from to }
    ensures { result ≡ all_spaces (part w.now from to) }
{
    for i in from..to {
        if w[i] != b' ' {
            return false;
        }
    }
    true
}
