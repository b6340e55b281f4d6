// Ways to skip what the table of `utf8` would accept, many bytes at once. They decide nothing: to go on from where a skip ends is the same as to
// go on by the rows, and without them every answer stays.
ghost use Rattle.std.specs.Prelude.{◌≡◌, ◌+◌, ◌*◌, ◌/◌, ◌≤◌, ◌<◌, length, drop, leb, IfSome};
ghost use Rattle.reading.proofs.Utf8.{plain};
ghost use Rattle.strings.specs.Fits.{all_fit};
ghost use Rattle.strings.specs.Skips.{LastBegins, Skips, last_plain};

use crate::fits::fits;
use utf8::tail;

// Whether eight bytes are all UTF8-1, by the highest bit of each: one load on a little-endian processor.
fn eight(bytes: &[u8; 8]) -> bool
    ensures { result ≡ leb 8 (plain bytes.now) }
{
    u64::from_le_bytes(*bytes) & 0x8080808080808080 == 0
}

// Four, likewise: `u32` and `u64` share no trait with `from_le_bytes`, and `each` in place of both takes a sixth more instructions on strings of 4 to 16 bytes.
fn four(bytes: &[u8; 4]) -> bool
    ensures { result ≡ leb 4 (plain bytes.now) }
{
    u32::from_le_bytes(*bytes) & 0x80808080 == 0
}

// Whether these bytes are all UTF8-1: no branch for a byte, so that they are tested at once.
fn each(bytes: &[u8]) -> bool
    ensures { result ≡ leb (length bytes.now) (plain bytes.now) }
{
    bytes.iter().fold(true, |all, byte| all & byte.is_ascii())
}

// Whether the N bytes at `at` are all UTF8-1.
fn block<const N: usize>(s: &[u8], at: usize) -> bool
    requires { at + N ≤ length s.now }
    ensures { result ≡ leb N (plain (drop at s.now)) }
{
    let bytes = &s[at..at + N];
    if let Some(bytes) = bytes.as_array::<8>() {
        return eight(bytes);
    }
    if let Some(bytes) = bytes.as_array::<4>() {
        return four(bytes);
    }
    each(bytes)
}

// Past the blocks of N UTF8-1 at `at`. A loop: `chunks_exact` and `take_while` take a tenth more instructions on strings of 17 to 200 bytes.
fn past_blocks<const N: usize>(s: &[u8], at: usize) -> usize
    requires at_in_bounds { at ≤ length s.now }
    requires n_nonzero { 0 < N }
    ensures { result ≡ at + plain (drop at s.now) / N * N }
{
    let mut i = at;
    while N <= s.len() - i && block::<N>(s, i) {
        i += N;
    }
    i
}

// Past the UTF8-1 at `at`, one by one.
fn past_bytes(s: &[u8], at: usize) -> usize
    requires { at ≤ length s.now }
    ensures { result ≡ at + plain (drop at s.now) }
{
    match s[at..].iter().position(|byte| !byte.is_ascii()) {
        Some(k) => at + k,
        None => s.len(),
    }
}

// Whether at most eight bytes are left at i, and the last eight are all UTF8-1.
#[tactic(auto, using(crate::proofs::Highs::ends))]
fn last_eight(s: &[u8], i: usize) -> bool
    requires { i ≤ length s.now }
    ensures { result ≡ last_plain 8 s.now i }
{
    8 <= s.len() && s.len() - 8 <= i && block::<8>(s, s.len() - 8)
}

// Past the run of UTF8-1 at `at`: by blocks of 64, of 8, and one by one.
#[tactic(auto, using(crate::proofs::Highs::last_rest, crate::proofs::Whole::blocks))]
fn past_run(s: &[u8], at: usize) -> usize
    requires { at ≤ length s.now }
    ensures { result ≡ at + plain (drop at s.now) }
{
    if s.len() <= at || !s[at].is_ascii() {
        return at;
    }
    let i = past_blocks::<8>(s, past_blocks::<64>(s, at));
    if last_eight(s, i) {
        return s.len();
    }
    past_bytes(s, i)
}

// Whether each of the N bytes at `at` fits those before it: no branch for a byte, so that they are tested at once.
#[tactic(auto, using(crate::proofs::Bytes::looked_at))]
fn window<const N: usize>(s: &[u8], at: usize) -> bool
    requires le_at { 3 ≤ at }
    requires n_in_bounds { at + N ≤ length s.now }
    ensures { result ≡ all_fit s.now at N }
{
    let mut all = true;
    for i in 0..N {
        let j = at + i;
        all &= fits(s[j - 3], s[j - 2], s[j - 1], s[j]);
    }
    all
}

// Where the last character begins of those that begin behind the first of these bytes.
fn back(s: &[u8], low: usize, high: usize) -> Option<usize>
    requires low_lt_high { low < high }
    requires high_in_bounds { high ≤ length s.now }
    ensures { IfSome result (λ r. (low < r) × LastBegins s.now low high r) }
{
    (low + 1..high).rev().find(|i| !tail(s[*i]))
}

// Past windows of N bytes, from the first byte of a character to that of another.
#[tactic(auto, using(crate::proofs::Skips::windows))]
fn past_windows<const N: usize>(s: &[u8], at: usize) -> usize
    requires at_in_bounds { at ≤ length s.now }
    requires n_nonzero { 0 < N }
    ensures { Skips s.now at result }
{
    if at < 3 || s.len() - at < N || tail(s[at]) {
        return at;
    }
    let mut i = at;
    // no range and no iterator: each step is as long as what was passed
    while N <= s.len() - i && window::<N>(s, i) {
        let Some(next) = back(s, i, i + N) else {
            return i;
        };
        i = next;
    }
    i
}

// Past a run of UTF8-1 at `at`, and past windows behind it.
#[tactic(auto, using(utf8::proofs::Places::run_room))]
pub fn past(s: &[u8], at: usize) -> usize
    requires { at ≤ length s.now }
    ensures { Skips s.now at result }
{
    let run = past_run(s, at);
    if s.len() <= run {
        return run;
    }
    past_windows::<64>(s, run)
}

// Whether all bytes are UTF8-1: the first N and the last N are looked at, and there are no others.
fn both_ends<const N: usize>(s: &[u8]) -> bool
    requires k_in_bounds { N ≤ length s.now }
    requires s_len_bound { length s.now ≤ N + N }
    ensures { result ≡ leb (length s.now) (plain s.now) }
{
    block::<N>(s, 0) && block::<N>(s, s.len() - N)
}

// Past all bytes, where there are 4 to 16 and all are UTF8-1, by two looks; otherwise past none.
#[tactic(auto, using(crate::proofs::Skips::same_place, crate::proofs::Skips::all_skips))]
pub fn short(s: &[u8]) -> usize
    ensures { Skips s.now 0 result }
{
    let n = s.len();
    if !(4..=16).contains(&n) {
        return 0;
    }
    let plain = if n < 8 {
        both_ends::<4>(s)
    } else {
        both_ends::<8>(s)
    };
    if plain { n } else { 0 }
}
