// What C links: each function of `host`, under its name and with its contract.
// Made by tools/exports from crates/host.
#![tactic(auto)]

ghost use Rattle.std.specs.Prelude.{◌≡◌};
ghost use Rattle.reading.specs.Layout.{memo};
ghost use Rattle.reading.specs.Answer.{one, run};
ghost use Rattle.datagram.specs.Shown.{decoded, ran};

use datagram::decode::{Answer, Decoded};

mod extended;
mod heads;
mod lists;
mod mpls;
mod payload;
mod polled;
mod sampled;
mod wireless;

// One datagram.
#[unsafe(no_mangle)]
pub extern "C" fn latchplume_decode(s: &[u8], store: &mut [u32]) -> Decoded
    ensures { decoded result store.new ≡ one memo s.now store.old }
{
    host::latchplume_decode(s, store)
}

// A run of datagrams end to end.
#[unsafe(no_mangle)]
pub extern "C" fn latchplume_decode_run(s: &[u8], store: &mut [u32]) -> Answer
    ensures { ran result store.new ≡ run memo s.now store.old }
{
    host::latchplume_decode_run(s, store)
}
