// How many characters of a URL `normalize` of `sanitize_uri.rs` visits: a triple that is kept is one visit.
#![tactic(auto)]

ghost use Rattle.std.specs.Prelude.{◌<◌, ◌≡◌, length, drop};
ghost use Rattle.normalize_visits.specs.Visits.{behind_of, visits_of};

// The bytes behind the `%` of a triple.
const TRIPLE: usize = 2;

pub fn count_visits(url: &[u8]) -> usize
    ensures { result ≡ visits_of url.now }
{
    let mut visits: usize = 0;
    let mut i: usize = 0;
    // Counted by hand: the step depends on the bytes read.
    while i < url.len() {
        let behind = behind(url, i);
        visits += 1;
        if url.len() - i <= behind {
            return visits;
        }
        i += 1 + behind;
    }
    visits
}

// How many bytes the visit at `i` passes behind its first. A byte that begins no character passes none.
fn behind(url: &[u8], i: usize) -> usize
    requires { i < length url.now }
    ensures { result ≡ behind_of (drop i url.now) }
{
    match url[i] {
        b'%' => {
            if url_byte::has_two_alnum(&url[i + 1..]) {
                TRIPLE
            } else {
                0
            }
        }
        b => utf8::char_len(b).saturating_sub(1),
    }
}
