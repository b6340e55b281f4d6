// Made by tools/exports from crates/host.
// What was sampled: the packet's first bytes, or the fields of its header.
// Each layout has a function of its own, by whose name C asks for it.
ghost use Rattle.std.specs.Prelude.{◌≡◌};
ghost use Rattle.reading.specs.Layout.{memo};
ghost use Rattle.xdr.specs.Shown.{answer_of};
ghost use Rattle.flow_layouts.specs.Shown.{sampled_header, sampled_ethernet, sampled_ipv4, sampled_ipv6};
ghost use Rattle.fields.specs.Shown.{read_at};

use fields::descriptor::Words;
use flow_layouts::sampled::{SampledEthernet, SampledHeader, SampledIpv4, SampledIpv6};
use layout::record::Reading;
use xdr::Outcome;

// What C gets of a reading of SampledHeader, since no generic struct goes to C.
#[repr(C)]
#[derive(Clone, Copy)]
pub struct SampledHeaderReading {
    pub outcome: Outcome,
    pub fields: SampledHeader,
}

#[unsafe(no_mangle)]
pub extern "C" fn latchplume_read_sampled_header(s: &[u8], d: &Words) -> SampledHeaderReading
    ensures { answer_of result.outcome (sampled_header result.fields) ≡ read_at memo 2 1 s.now d.now }
{
    let Reading { outcome, fields } = host::sampled::latchplume_read_sampled_header(s, d);
    SampledHeaderReading { outcome, fields }
}

// What C gets of a reading of SampledEthernet, since no generic struct goes to C.
#[repr(C)]
#[derive(Clone, Copy)]
pub struct SampledEthernetReading {
    pub outcome: Outcome,
    pub fields: SampledEthernet,
}

#[unsafe(no_mangle)]
pub extern "C" fn latchplume_read_sampled_ethernet(s: &[u8], d: &Words) -> SampledEthernetReading
    ensures { answer_of result.outcome (sampled_ethernet result.fields) ≡ read_at memo 2 2 s.now d.now }
{
    let Reading { outcome, fields } = host::sampled::latchplume_read_sampled_ethernet(s, d);
    SampledEthernetReading { outcome, fields }
}

// What C gets of a reading of SampledIpv4, since no generic struct goes to C.
#[repr(C)]
#[derive(Clone, Copy)]
pub struct SampledIpv4Reading {
    pub outcome: Outcome,
    pub fields: SampledIpv4,
}

#[unsafe(no_mangle)]
pub extern "C" fn latchplume_read_sampled_ipv4(s: &[u8], d: &Words) -> SampledIpv4Reading
    ensures { answer_of result.outcome (sampled_ipv4 result.fields) ≡ read_at memo 2 3 s.now d.now }
{
    let Reading { outcome, fields } = host::sampled::latchplume_read_sampled_ipv4(s, d);
    SampledIpv4Reading { outcome, fields }
}

// What C gets of a reading of SampledIpv6, since no generic struct goes to C.
#[repr(C)]
#[derive(Clone, Copy)]
pub struct SampledIpv6Reading {
    pub outcome: Outcome,
    pub fields: SampledIpv6,
}

#[unsafe(no_mangle)]
pub extern "C" fn latchplume_read_sampled_ipv6(s: &[u8], d: &Words) -> SampledIpv6Reading
    ensures { answer_of result.outcome (sampled_ipv6 result.fields) ≡ read_at memo 2 4 s.now d.now }
{
    let Reading { outcome, fields } = host::sampled::latchplume_read_sampled_ipv6(s, d);
    SampledIpv6Reading { outcome, fields }
}
