// Made by layouts/make from layouts/table.
// What was polled: the counters of an interface, of a VLAN and of the processor.
// Each layout has a function of its own, by whose name C asks for it.
ghost use Rattle.std.specs.Prelude.{◌≡◌};
ghost use Rattle.reading.specs.Layout.{memo};
ghost use Rattle.xdr.specs.Shown.{answer_of};
ghost use Rattle.counters.specs.Shown.{generic_interface_counters, ethernet_interface_counters, token_ring_counters, vg100_interface_counters, vlan_counters, processor_counters};
ghost use Rattle.fields.specs.Shown.{read_at};

use counters::polled::{
    EthernetInterfaceCounters, GenericInterfaceCounters, ProcessorCounters, TokenRingCounters,
    Vg100InterfaceCounters, VlanCounters,
};
use fields::ask::read;
use fields::descriptor::Words;
use layout::field::Mode;
use layout::record::Reading;

pub fn latchplume_read_generic_interface_counters(
    s: &[u8],
    d: &Words,
) -> Reading<GenericInterfaceCounters>
    ensures { answer_of result.outcome (generic_interface_counters result.fields) ≡ read_at memo 3 1 s.now d.now }
{
    read(s, d, 3, 1, Mode::Memo)
}

pub fn latchplume_read_ethernet_interface_counters(
    s: &[u8],
    d: &Words,
) -> Reading<EthernetInterfaceCounters>
    ensures { answer_of result.outcome (ethernet_interface_counters result.fields) ≡ read_at memo 3 2 s.now d.now }
{
    read(s, d, 3, 2, Mode::Memo)
}

pub fn latchplume_read_token_ring_counters(s: &[u8], d: &Words) -> Reading<TokenRingCounters>
    ensures { answer_of result.outcome (token_ring_counters result.fields) ≡ read_at memo 3 3 s.now d.now }
{
    read(s, d, 3, 3, Mode::Memo)
}

pub fn latchplume_read_vg100_interface_counters(
    s: &[u8],
    d: &Words,
) -> Reading<Vg100InterfaceCounters>
    ensures { answer_of result.outcome (vg100_interface_counters result.fields) ≡ read_at memo 3 4 s.now d.now }
{
    read(s, d, 3, 4, Mode::Memo)
}

pub fn latchplume_read_vlan_counters(s: &[u8], d: &Words) -> Reading<VlanCounters>
    ensures { answer_of result.outcome (vlan_counters result.fields) ≡ read_at memo 3 5 s.now d.now }
{
    read(s, d, 3, 5, Mode::Memo)
}

pub fn latchplume_read_processor_counters(s: &[u8], d: &Words) -> Reading<ProcessorCounters>
    ensures { answer_of result.outcome (processor_counters result.fields) ≡ read_at memo 3 1001 s.now d.now }
{
    read(s, d, 3, 1001, Mode::Memo)
}
