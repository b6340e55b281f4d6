// What C links to compare with the crate: each function of `host_base`, under its name and with its contract.
// Made by tools/exports from crates/host_base.
#![tactic(auto)]

ghost use Rattle.std.specs.Prelude.{◌≡◌};
ghost use Rattle.reading.specs.Layout.{base};
ghost use Rattle.reading.specs.Answer.{one, run};
ghost use Rattle.xdr.specs.Shown.{answer_of};
ghost use Rattle.flow_layouts.specs.Shown.{sampled_ethernet};
ghost use Rattle.datagram.specs.Shown.{decoded, ran};
ghost use Rattle.fields.specs.Shown.{read_at};

use datagram::decode::{Answer, Decoded};
use fields::descriptor::Words;
use flow_layouts::sampled::SampledEthernet;
use layout::record::Reading;
use xdr::Outcome;

// One datagram.
#[unsafe(no_mangle)]
pub extern "C" fn latchplume_decode_base(s: &[u8], store: &mut [u32]) -> Decoded
    ensures { decoded result store.new ≡ one base s.now store.old }
{
    host_base::latchplume_decode_base(s, store)
}

// A run of datagrams end to end.
#[unsafe(no_mangle)]
pub extern "C" fn latchplume_decode_run_base(s: &[u8], store: &mut [u32]) -> Answer
    ensures { ran result store.new ≡ run base s.now store.old }
{
    host_base::latchplume_decode_run_base(s, store)
}

// What C gets of a reading of SampledEthernet, since no generic struct goes to C.
#[repr(C)]
#[derive(Clone, Copy)]
pub struct SampledEthernetReading {
    pub outcome: Outcome,
    pub fields: SampledEthernet,
}

// The fields of flow record 2; those of every other descriptor are the same in each mode.
#[unsafe(no_mangle)]
pub extern "C" fn latchplume_read_sampled_ethernet_base(
    s: &[u8],
    d: &Words,
) -> SampledEthernetReading
    ensures { answer_of result.outcome (sampled_ethernet result.fields) ≡ read_at base 2 2 s.now d.now }
{
    let Reading { outcome, fields } = host_base::latchplume_read_sampled_ethernet_base(s, d);
    SampledEthernetReading { outcome, fields }
}
