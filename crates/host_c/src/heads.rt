// Made by tools/exports from crates/host.
// Heads: the fields of a datagram or of a sample, before what it holds.
// Each layout has a function of its own, by whose name C asks for it.
ghost use Rattle.std.specs.Prelude.{◌≡◌};
ghost use Rattle.reading.specs.Layout.{memo};
ghost use Rattle.xdr.specs.Shown.{answer_of};
ghost use Rattle.datagram.specs.Shown.{header_fields};
ghost use Rattle.samples.specs.Shown.{flow_sample, counters_sample, flow_sample_expanded, counters_sample_expanded, discarded_packet};
ghost use Rattle.fields.specs.Shown.{read_at};

use datagram::header::Header;
use fields::descriptor::Words;
use layout::record::Reading;
use samples::heads::{
    CountersSample, CountersSampleExpanded, DiscardedPacket, FlowSample, FlowSampleExpanded,
};
use xdr::Outcome;

// What C gets of a reading of Header, since no generic struct goes to C.
#[repr(C)]
#[derive(Clone, Copy)]
pub struct HeaderReading {
    pub outcome: Outcome,
    pub fields: Header,
}

#[unsafe(no_mangle)]
pub extern "C" fn latchplume_read_header(s: &[u8], d: &Words) -> HeaderReading
    ensures { answer_of result.outcome (header_fields result.fields) ≡ read_at memo 0 0 s.now d.now }
{
    let Reading { outcome, fields } = host::heads::latchplume_read_header(s, d);
    HeaderReading { outcome, fields }
}

// What C gets of a reading of FlowSample, since no generic struct goes to C.
#[repr(C)]
#[derive(Clone, Copy)]
pub struct FlowSampleReading {
    pub outcome: Outcome,
    pub fields: FlowSample,
}

#[unsafe(no_mangle)]
pub extern "C" fn latchplume_read_flow_sample(s: &[u8], d: &Words) -> FlowSampleReading
    ensures { answer_of result.outcome (flow_sample result.fields) ≡ read_at memo 1 1 s.now d.now }
{
    let Reading { outcome, fields } = host::heads::latchplume_read_flow_sample(s, d);
    FlowSampleReading { outcome, fields }
}

// What C gets of a reading of CountersSample, since no generic struct goes to C.
#[repr(C)]
#[derive(Clone, Copy)]
pub struct CountersSampleReading {
    pub outcome: Outcome,
    pub fields: CountersSample,
}

#[unsafe(no_mangle)]
pub extern "C" fn latchplume_read_counters_sample(s: &[u8], d: &Words) -> CountersSampleReading
    ensures { answer_of result.outcome (counters_sample result.fields) ≡ read_at memo 1 2 s.now d.now }
{
    let Reading { outcome, fields } = host::heads::latchplume_read_counters_sample(s, d);
    CountersSampleReading { outcome, fields }
}

// What C gets of a reading of FlowSampleExpanded, since no generic struct goes to C.
#[repr(C)]
#[derive(Clone, Copy)]
pub struct FlowSampleExpandedReading {
    pub outcome: Outcome,
    pub fields: FlowSampleExpanded,
}

#[unsafe(no_mangle)]
pub extern "C" fn latchplume_read_flow_sample_expanded(
    s: &[u8],
    d: &Words,
) -> FlowSampleExpandedReading
    ensures { answer_of result.outcome (flow_sample_expanded result.fields) ≡ read_at memo 1 3 s.now d.now }
{
    let Reading { outcome, fields } = host::heads::latchplume_read_flow_sample_expanded(s, d);
    FlowSampleExpandedReading { outcome, fields }
}

// What C gets of a reading of CountersSampleExpanded, since no generic struct goes to C.
#[repr(C)]
#[derive(Clone, Copy)]
pub struct CountersSampleExpandedReading {
    pub outcome: Outcome,
    pub fields: CountersSampleExpanded,
}

#[unsafe(no_mangle)]
pub extern "C" fn latchplume_read_counters_sample_expanded(
    s: &[u8],
    d: &Words,
) -> CountersSampleExpandedReading
    ensures { answer_of result.outcome (counters_sample_expanded result.fields) ≡ read_at memo 1 4 s.now d.now }
{
    let Reading { outcome, fields } = host::heads::latchplume_read_counters_sample_expanded(s, d);
    CountersSampleExpandedReading { outcome, fields }
}

// What C gets of a reading of DiscardedPacket, since no generic struct goes to C.
#[repr(C)]
#[derive(Clone, Copy)]
pub struct DiscardedPacketReading {
    pub outcome: Outcome,
    pub fields: DiscardedPacket,
}

#[unsafe(no_mangle)]
pub extern "C" fn latchplume_read_discarded_packet(s: &[u8], d: &Words) -> DiscardedPacketReading
    ensures { answer_of result.outcome (discarded_packet result.fields) ≡ read_at memo 1 5 s.now d.now }
{
    let Reading { outcome, fields } = host::heads::latchplume_read_discarded_packet(s, d);
    DiscardedPacketReading { outcome, fields }
}
