// What a C host links to compare with the crate: the calls that read a sampled Ethernet record, in the base mode. They are compiled apart from those
// of `host`, so that each has its mode as a number that the compiler knows.
#![tactic(auto)]

ghost use Rattle.std.specs.Prelude.{◌≡◌};
ghost use Rattle.reading.specs.Layout.{base};
ghost use Rattle.reading.specs.Answer.{one, run};
ghost use Rattle.xdr.specs.Shown.{answer_of};
ghost use Rattle.flow_layouts.specs.Shown.{sampled_ethernet};
ghost use Rattle.datagram.specs.Shown.{decoded, ran};
ghost use Rattle.fields.specs.Shown.{read_at};

use datagram::decode::{Answer, Decoded, decode};
use datagram::run::decode_run;
use fields::ask::read;
use fields::descriptor::Words;
use flow_layouts::sampled::SampledEthernet;
use layout::field::Mode;
use layout::record::Reading;

// One datagram.
pub fn latchplume_decode_base(s: &[u8], store: &mut [u32]) -> Decoded
    ensures { decoded result store.new ≡ one base s.now store.old }
{
    decode(s, store, Mode::Base)
}

// A run of datagrams end to end.
pub fn latchplume_decode_run_base(s: &[u8], store: &mut [u32]) -> Answer
    ensures { ran result store.new ≡ run base s.now store.old }
{
    decode_run(s, store, Mode::Base)
}

// The fields of flow record 2; those of every other descriptor are the same in each mode.
pub fn latchplume_read_sampled_ethernet_base(s: &[u8], d: &Words) -> Reading<SampledEthernet>
    ensures { answer_of result.outcome (sampled_ethernet result.fields) ≡ read_at base 2 2 s.now d.now }
{
    read(s, d, 2, 2, Mode::Base)
}
