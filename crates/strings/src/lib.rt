// Strings: whether bytes are UTF-8, and where they cease to be, a character of the table (crate `utf8`) at a time.
#![tactic(auto)]

ghost use Rattle.std.specs.Prelude.{◌≡◌};
ghost use Rattle.reading.specs.Utf8.{well_formed_of};

use utf8;

mod fits;
mod skip;

// UTF8-octets: how many bytes its longest well-formed beginning has; all of them, where they are UTF-8. The skips save time and decide nothing.
#[tactic(auto, using(crate::proofs::Skips::walking))]
pub fn well_formed(s: &[u8]) -> usize
    ensures { result ≡ well_formed_of s.now }
{
    let mut at = skip::short(s);
    // no range and no iterator: each step is as long as what was passed
    while at < s.len() {
        at = skip::past(s, at);
        let n = utf8::utf8_char(s, at);
        if n == 0 {
            return at;
        }
        at += n;
    }
    at
}
