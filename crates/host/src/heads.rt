// Made by layouts/make from layouts/table.
// Heads: the fields of a datagram or of a sample, before what it holds.
// Each layout has a function of its own, by whose name C asks for it.
ghost use Rattle.std.specs.Prelude.{◌≡◌};
ghost use Rattle.reading.specs.Layout.{memo};
ghost use Rattle.xdr.specs.Shown.{answer_of};
ghost use Rattle.datagram.specs.Shown.{header_fields};
ghost use Rattle.samples.specs.Shown.{flow_sample, counters_sample, flow_sample_expanded, counters_sample_expanded, discarded_packet};
ghost use Rattle.fields.specs.Shown.{read_at};

use datagram::header::Header;
use fields::ask::read;
use fields::descriptor::Words;
use layout::field::Mode;
use layout::record::Reading;
use samples::heads::{
    CountersSample, CountersSampleExpanded, DiscardedPacket, FlowSample, FlowSampleExpanded,
};

#[tactic(auto, unfolding(reading::specs::Answer::layout_of))]
pub fn latchplume_read_header(s: &[u8], d: &Words) -> Reading<Header>
    ensures { answer_of result.outcome (header_fields result.fields) ≡ read_at memo 0 0 s.now d.now }
{
    read(s, d, 0, 0, Mode::Memo)
}

pub fn latchplume_read_flow_sample(s: &[u8], d: &Words) -> Reading<FlowSample>
    ensures { answer_of result.outcome (flow_sample result.fields) ≡ read_at memo 1 1 s.now d.now }
{
    read(s, d, 1, 1, Mode::Memo)
}

pub fn latchplume_read_counters_sample(s: &[u8], d: &Words) -> Reading<CountersSample>
    ensures { answer_of result.outcome (counters_sample result.fields) ≡ read_at memo 1 2 s.now d.now }
{
    read(s, d, 1, 2, Mode::Memo)
}

pub fn latchplume_read_flow_sample_expanded(s: &[u8], d: &Words) -> Reading<FlowSampleExpanded>
    ensures { answer_of result.outcome (flow_sample_expanded result.fields) ≡ read_at memo 1 3 s.now d.now }
{
    read(s, d, 1, 3, Mode::Memo)
}

pub fn latchplume_read_counters_sample_expanded(
    s: &[u8],
    d: &Words,
) -> Reading<CountersSampleExpanded>
    ensures { answer_of result.outcome (counters_sample_expanded result.fields) ≡ read_at memo 1 4 s.now d.now }
{
    read(s, d, 1, 4, Mode::Memo)
}

pub fn latchplume_read_discarded_packet(s: &[u8], d: &Words) -> Reading<DiscardedPacket>
    ensures { answer_of result.outcome (discarded_packet result.fields) ≡ read_at memo 1 5 s.now d.now }
{
    read(s, d, 1, 5, Mode::Memo)
}
