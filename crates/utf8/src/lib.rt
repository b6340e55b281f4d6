// RFC 3629, section 4: the table of well-formed byte sequences, a test for each of its nine rows. `among(0xc2, 0xdf, a)` is its %xC2-DF.
#![tactic(auto)]

ghost use Rattle.std.specs.Prelude.{◌≡◌, ◌≤◌, length, drop};
ghost use Rattle.reading.specs.Utf8.{tail};
ghost use Rattle.reading.proofs.Utf8.{width};

use crate::ranges::{among, behind};

pub mod ranges;

// UTF8-tail
pub fn tail(a: u8) -> bool
    ensures { result ≡ tail a }
{
    among(0x80, 0xbf, a)
}

// How many bytes the UTF8-char at `at` has; 0 where none begins there. A number and no Option, since `utf8_char_settled` and docs/UTF8.md say it so.
pub fn utf8_char(s: &[u8], at: usize) -> usize
    requires { at ≤ length s.now }
    ensures { result ≡ width (drop at s.now) }
{
    let Some(&a) = s.get(at) else {
        return 0;
    };
    // UTF8-1
    if among(0x00, 0x7f, a) {
        return 1;
    }
    let b = behind(s, at, 1);
    // UTF8-2
    if among(0xc2, 0xdf, a) & tail(b) {
        return 2;
    }
    let c = behind(s, at, 2);
    // UTF8-3
    if among(0xe0, 0xe0, a) & among(0xa0, 0xbf, b) & tail(c)
        || among(0xe1, 0xec, a) & tail(b) & tail(c)
        || among(0xed, 0xed, a) & among(0x80, 0x9f, b) & tail(c)
        || among(0xee, 0xef, a) & tail(b) & tail(c)
    {
        return 3;
    }
    let d = behind(s, at, 3);
    // UTF8-4
    if among(0xf0, 0xf0, a) & among(0x90, 0xbf, b) & tail(c) & tail(d)
        || among(0xf1, 0xf3, a) & tail(b) & tail(c) & tail(d)
        || among(0xf4, 0xf4, a) & among(0x80, 0x8f, b) & tail(c) & tail(d)
    {
        return 4;
    }
    0
}
