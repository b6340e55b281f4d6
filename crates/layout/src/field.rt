// The fields of a layout that are more than an item of `xdr`.
ghost use Rattle.std.specs.Prelude.{◌≡◌, ◌+◌, ◌*◌, ◌≤◌, ◌<◌, ◌^◌, length, map};
ghost use Rattle.reading.specs.Script.{number, octets};
ghost use Rattle.reading.specs.Layout.{protocol, ethernet, words};
ghost use Rattle.reading.proofs.Fields.{field_out, fields_out};
ghost use Rattle.reading.proofs.Words.{numbers};
ghost use Rattle.xdr.specs.Shown.{Inside, place, read_out};
ghost use Rattle.layout.specs.Shown.{mode_of};

use load;
use xdr::{Cursor, Read, Reason};

// How the addresses of a sampled Ethernet record stand: padded to a multiple of four, as the memo has them, or bare, as the crate reads them.
#[derive(Clone, Copy, PartialEq, Eq)]
pub enum Mode {
    Memo,
    Base,
}

// The N words at `at`.
#[tactic(auto, using(crate::proofs::Laws::loads))]
fn load_words<const N: usize>(s: &[u8], at: usize) -> [u32; N]
    requires { at + 4 * N ≤ length s.now }
    ensures { map number result ≡ numbers N s.now at }
{
    let mut words = [0; N];
    for i in 0..N {
        words[i] = load::be32(s, at + 4 * i);
    }
    words
}

// A row of N words, by one comparison.
pub fn words<const N: usize>(c: Cursor, s: &[u8]) -> Read<[u32; N]>
    requires inside { Inside s.now c }
    requires few { N < 2 ^ 32 }
    ensures { read_out (map number) result ≡ fields_out (words N) s.now (place c) }
{
    let d = c.read_words(s, N as u32)?;
    Ok((load_words(s, c.at), d))
}

// A MAC address: the first six bytes of a block of eight, and in the base mode a block of six.
#[tactic(auto, unfolding(reading::specs::Cursor::fixed, reading::specs::Cursor::read_item, reading::proofs::Fields::field_out))]
pub fn six(c: Cursor, s: &[u8], mode: Mode) -> Read<[u8; 6]>
    requires { Inside s.now c }
    ensures { read_out octets result ≡ field_out (ethernet (mode_of mode)) s.now (place c) }
{
    let d = match mode {
        Mode::Memo => c.pass_fixed::<8>(s)?,
        Mode::Base => c.pass_fixed::<6>(s)?,
    };
    Ok((load::block(s, c.at), d))
}

// The protocol of a header, one of those that `HeaderProtocol` knows.
#[tactic(auto, unfolding(reading::specs::Cursor::fixed, reading::specs::Cursor::read_item, reading::proofs::Fields::field_out))]
pub fn protocol(c: Cursor, s: &[u8]) -> Read<u32>
    requires { Inside s.now c }
    ensures { read_out number result ≡ field_out protocol s.now (place c) }
{
    let (protocol, d) = c.read_u32(s)?;
    match protocol {
        1..=17 => Ok((protocol, d)),
        _ => Err(c.refusal(Reason::HeaderProtocol)),
    }
}
