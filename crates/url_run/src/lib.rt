// How far a run of bytes goes that a URL keeps as they are, found by looking at many bytes together.
#![tactic(auto)]

ghost use Rattle.std.specs.Prelude.{◌+◌, ◌≤◌, ◌<◌, true, false, ◌≡◌, length, take, drop};
ghost use Rattle.lent.specs.Bytes.{any};
ghost use Rattle.url_byte.specs.Private.{is_apart};
ghost use Rattle.url_run.specs.Private.{is_odd, marks_of, word_of, run_of};

// Whether sixty-four bytes make a run without a `%`: first by a cheap test, which most bytes of a link pass.
pub fn is_run(value: &[u8], i: usize) -> bool
    requires { i + 64 ≤ length value.now }
    ensures { result ≡ true → any is_apart (take 64 (drop i value.now)) ≡ false }
{
    let window = &value[i..i + 64];
    if !encode::has_any(window, |b| is_odd(b)) {
        return true;
    }
    !encode::has_any(window, |b| url_byte::is_apart(b))
}

// Letters, digits and `( ) * + , - . / : ;` are not odd.
fn is_odd(b: u8) -> bool
    ensures { result ≡ is_odd b }
{
    !(((40 <= b) & (b <= 59)) | ((65 <= b) & (b <= 90)) | ((97 <= b) & (b <= 122)))
}

// The marks of the bytes from `i` on.
pub fn mark_all(value: &[u8], i: usize, marks: &mut [u8])
    requires { i + length marks.old + 2 ≤ length value.now }
    ensures { marks.new ≡ marks_of (length marks.old) (drop i value.now) }
{
    for k in 0..marks.len() {
        marks[k] = url_byte::mark(value[i + k], value[i + k + 1], value[i + k + 2]);
    }
}

// Eight marks in a word, the first lowest.
pub fn word(marks: &[u8; 8]) -> u64
    ensures { result ≡ word_of marks.now }
{
    u64::from_le_bytes(*marks)
}

// How many marks of a word stand before the first that is set.
pub fn run(word: u64) -> usize
    ensures { (result ≡ run_of word) × (result ≤ 8) }
{
    (u64::trailing_zeros(word) / 8) as usize
}
