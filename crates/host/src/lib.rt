// What a C host links: the field readings, each by the reader of its layout; and the other calls under plain names, with the contracts that they have in
// `datagram` and `fields`.
#![tactic(auto)]

ghost use Rattle.std.specs.Prelude.{◌≡◌};
ghost use Rattle.reading.specs.Layout.{memo};
ghost use Rattle.reading.specs.Answer.{one, run};
ghost use Rattle.datagram.specs.Shown.{decoded, ran};

use datagram::decode::{Answer, Decoded, decode};
use datagram::run::decode_run;
use layout::field::Mode;

pub mod extended;
pub mod heads;
pub mod lists;
pub mod mpls;
pub mod payload;
pub mod polled;
pub mod sampled;
pub mod wireless;

// One datagram.
pub fn latchplume_decode(s: &[u8], store: &mut [u32]) -> Decoded
    ensures { decoded result store.new ≡ one memo s.now store.old }
{
    decode(s, store, Mode::Memo)
}

// A run of datagrams end to end.
pub fn latchplume_decode_run(s: &[u8], store: &mut [u32]) -> Answer
    ensures { ran result store.new ≡ run memo s.now store.old }
{
    decode_run(s, store, Mode::Memo)
}
