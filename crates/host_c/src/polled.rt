// Made by tools/exports from crates/host.
// What was polled: the counters of an interface, of a VLAN and of the processor.
// Each layout has a function of its own, by whose name C asks for it.
ghost use Rattle.std.specs.Prelude.{◌≡◌};
ghost use Rattle.reading.specs.Layout.{memo};
ghost use Rattle.xdr.specs.Shown.{answer_of};
ghost use Rattle.counters.specs.Shown.{generic_interface_counters, ethernet_interface_counters, token_ring_counters, vg100_interface_counters, vlan_counters, processor_counters};
ghost use Rattle.fields.specs.Shown.{read_at};

use counters::polled::{
    EthernetInterfaceCounters, GenericInterfaceCounters, ProcessorCounters, TokenRingCounters,
    Vg100InterfaceCounters, VlanCounters,
};
use fields::descriptor::Words;
use layout::record::Reading;
use xdr::Outcome;

// What C gets of a reading of GenericInterfaceCounters, since no generic struct goes to C.
#[repr(C)]
#[derive(Clone, Copy)]
pub struct GenericInterfaceCountersReading {
    pub outcome: Outcome,
    pub fields: GenericInterfaceCounters,
}

#[unsafe(no_mangle)]
pub extern "C" fn latchplume_read_generic_interface_counters(
    s: &[u8],
    d: &Words,
) -> GenericInterfaceCountersReading
    ensures { answer_of result.outcome (generic_interface_counters result.fields) ≡ read_at memo 3 1 s.now d.now }
{
    let Reading { outcome, fields } = host::polled::latchplume_read_generic_interface_counters(
        s, d,
    );
    GenericInterfaceCountersReading { outcome, fields }
}

// What C gets of a reading of EthernetInterfaceCounters, since no generic struct goes to C.
#[repr(C)]
#[derive(Clone, Copy)]
pub struct EthernetInterfaceCountersReading {
    pub outcome: Outcome,
    pub fields: EthernetInterfaceCounters,
}

#[unsafe(no_mangle)]
pub extern "C" fn latchplume_read_ethernet_interface_counters(
    s: &[u8],
    d: &Words,
) -> EthernetInterfaceCountersReading
    ensures { answer_of result.outcome (ethernet_interface_counters result.fields) ≡ read_at memo 3 2 s.now d.now }
{
    let Reading { outcome, fields } = host::polled::latchplume_read_ethernet_interface_counters(
        s, d,
    );
    EthernetInterfaceCountersReading { outcome, fields }
}

// What C gets of a reading of TokenRingCounters, since no generic struct goes to C.
#[repr(C)]
#[derive(Clone, Copy)]
pub struct TokenRingCountersReading {
    pub outcome: Outcome,
    pub fields: TokenRingCounters,
}

#[unsafe(no_mangle)]
pub extern "C" fn latchplume_read_token_ring_counters(
    s: &[u8],
    d: &Words,
) -> TokenRingCountersReading
    ensures { answer_of result.outcome (token_ring_counters result.fields) ≡ read_at memo 3 3 s.now d.now }
{
    let Reading { outcome, fields } = host::polled::latchplume_read_token_ring_counters(s, d);
    TokenRingCountersReading { outcome, fields }
}

// What C gets of a reading of Vg100InterfaceCounters, since no generic struct goes to C.
#[repr(C)]
#[derive(Clone, Copy)]
pub struct Vg100InterfaceCountersReading {
    pub outcome: Outcome,
    pub fields: Vg100InterfaceCounters,
}

#[unsafe(no_mangle)]
pub extern "C" fn latchplume_read_vg100_interface_counters(
    s: &[u8],
    d: &Words,
) -> Vg100InterfaceCountersReading
    ensures { answer_of result.outcome (vg100_interface_counters result.fields) ≡ read_at memo 3 4 s.now d.now }
{
    let Reading { outcome, fields } = host::polled::latchplume_read_vg100_interface_counters(s, d);
    Vg100InterfaceCountersReading { outcome, fields }
}

// What C gets of a reading of VlanCounters, since no generic struct goes to C.
#[repr(C)]
#[derive(Clone, Copy)]
pub struct VlanCountersReading {
    pub outcome: Outcome,
    pub fields: VlanCounters,
}

#[unsafe(no_mangle)]
pub extern "C" fn latchplume_read_vlan_counters(s: &[u8], d: &Words) -> VlanCountersReading
    ensures { answer_of result.outcome (vlan_counters result.fields) ≡ read_at memo 3 5 s.now d.now }
{
    let Reading { outcome, fields } = host::polled::latchplume_read_vlan_counters(s, d);
    VlanCountersReading { outcome, fields }
}

// What C gets of a reading of ProcessorCounters, since no generic struct goes to C.
#[repr(C)]
#[derive(Clone, Copy)]
pub struct ProcessorCountersReading {
    pub outcome: Outcome,
    pub fields: ProcessorCounters,
}

#[unsafe(no_mangle)]
pub extern "C" fn latchplume_read_processor_counters(
    s: &[u8],
    d: &Words,
) -> ProcessorCountersReading
    ensures { answer_of result.outcome (processor_counters result.fields) ≡ read_at memo 3 1001 s.now d.now }
{
    let Reading { outcome, fields } = host::polled::latchplume_read_processor_counters(s, d);
    ProcessorCountersReading { outcome, fields }
}
