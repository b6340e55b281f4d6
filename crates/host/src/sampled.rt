// Made by layouts/make from layouts/table.
// What was sampled: the packet's first bytes, or the fields of its header.
// Each layout has a function of its own, by whose name C asks for it.
ghost use Rattle.std.specs.Prelude.{◌≡◌};
ghost use Rattle.reading.specs.Layout.{memo};
ghost use Rattle.xdr.specs.Shown.{answer_of};
ghost use Rattle.flow_layouts.specs.Shown.{sampled_header, sampled_ethernet, sampled_ipv4, sampled_ipv6};
ghost use Rattle.fields.specs.Shown.{read_at};

use fields::ask::read;
use fields::descriptor::Words;
use flow_layouts::sampled::{SampledEthernet, SampledHeader, SampledIpv4, SampledIpv6};
use layout::field::Mode;
use layout::record::Reading;

pub fn latchplume_read_sampled_header(s: &[u8], d: &Words) -> Reading<SampledHeader>
    ensures { answer_of result.outcome (sampled_header result.fields) ≡ read_at memo 2 1 s.now d.now }
{
    read(s, d, 2, 1, Mode::Memo)
}

pub fn latchplume_read_sampled_ethernet(s: &[u8], d: &Words) -> Reading<SampledEthernet>
    ensures { answer_of result.outcome (sampled_ethernet result.fields) ≡ read_at memo 2 2 s.now d.now }
{
    read(s, d, 2, 2, Mode::Memo)
}

pub fn latchplume_read_sampled_ipv4(s: &[u8], d: &Words) -> Reading<SampledIpv4>
    ensures { answer_of result.outcome (sampled_ipv4 result.fields) ≡ read_at memo 2 3 s.now d.now }
{
    read(s, d, 2, 3, Mode::Memo)
}

pub fn latchplume_read_sampled_ipv6(s: &[u8], d: &Words) -> Reading<SampledIpv6>
    ensures { answer_of result.outcome (sampled_ipv6 result.fields) ≡ read_at memo 2 4 s.now d.now }
{
    read(s, d, 2, 4, Mode::Memo)
}
