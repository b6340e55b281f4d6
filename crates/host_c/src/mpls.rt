// Made by tools/exports from crates/host.
// MPLS: the labels of a packet, and the path that it takes.
// Each layout has a function of its own, by whose name C asks for it.
ghost use Rattle.std.specs.Prelude.{◌≡◌};
ghost use Rattle.reading.specs.Layout.{memo};
ghost use Rattle.xdr.specs.Shown.{answer_of};
ghost use Rattle.flow_layouts.specs.Shown.{extended_mpls, extended_mpls_tunnel, extended_mpls_vc, extended_mpls_fec, extended_mpls_lvp_fec};
ghost use Rattle.fields.specs.Shown.{read_at};

use fields::descriptor::Words;
use flow_layouts::mpls::{
    ExtendedMpls, ExtendedMplsFec, ExtendedMplsLvpFec, ExtendedMplsTunnel, ExtendedMplsVc,
};
use layout::record::Reading;
use xdr::Outcome;

// What C gets of a reading of ExtendedMpls, since no generic struct goes to C.
#[repr(C)]
#[derive(Clone, Copy)]
pub struct ExtendedMplsReading {
    pub outcome: Outcome,
    pub fields: ExtendedMpls,
}

#[unsafe(no_mangle)]
pub extern "C" fn latchplume_read_extended_mpls(s: &[u8], d: &Words) -> ExtendedMplsReading
    ensures { answer_of result.outcome (extended_mpls result.fields) ≡ read_at memo 2 1006 s.now d.now }
{
    let Reading { outcome, fields } = host::mpls::latchplume_read_extended_mpls(s, d);
    ExtendedMplsReading { outcome, fields }
}

// What C gets of a reading of ExtendedMplsTunnel, since no generic struct goes to C.
#[repr(C)]
#[derive(Clone, Copy)]
pub struct ExtendedMplsTunnelReading {
    pub outcome: Outcome,
    pub fields: ExtendedMplsTunnel,
}

#[unsafe(no_mangle)]
pub extern "C" fn latchplume_read_extended_mpls_tunnel(
    s: &[u8],
    d: &Words,
) -> ExtendedMplsTunnelReading
    ensures { answer_of result.outcome (extended_mpls_tunnel result.fields) ≡ read_at memo 2 1008 s.now d.now }
{
    let Reading { outcome, fields } = host::mpls::latchplume_read_extended_mpls_tunnel(s, d);
    ExtendedMplsTunnelReading { outcome, fields }
}

// What C gets of a reading of ExtendedMplsVc, since no generic struct goes to C.
#[repr(C)]
#[derive(Clone, Copy)]
pub struct ExtendedMplsVcReading {
    pub outcome: Outcome,
    pub fields: ExtendedMplsVc,
}

#[unsafe(no_mangle)]
pub extern "C" fn latchplume_read_extended_mpls_vc(s: &[u8], d: &Words) -> ExtendedMplsVcReading
    ensures { answer_of result.outcome (extended_mpls_vc result.fields) ≡ read_at memo 2 1009 s.now d.now }
{
    let Reading { outcome, fields } = host::mpls::latchplume_read_extended_mpls_vc(s, d);
    ExtendedMplsVcReading { outcome, fields }
}

// What C gets of a reading of ExtendedMplsFec, since no generic struct goes to C.
#[repr(C)]
#[derive(Clone, Copy)]
pub struct ExtendedMplsFecReading {
    pub outcome: Outcome,
    pub fields: ExtendedMplsFec,
}

#[unsafe(no_mangle)]
pub extern "C" fn latchplume_read_extended_mpls_fec(s: &[u8], d: &Words) -> ExtendedMplsFecReading
    ensures { answer_of result.outcome (extended_mpls_fec result.fields) ≡ read_at memo 2 1010 s.now d.now }
{
    let Reading { outcome, fields } = host::mpls::latchplume_read_extended_mpls_fec(s, d);
    ExtendedMplsFecReading { outcome, fields }
}

// What C gets of a reading of ExtendedMplsLvpFec, since no generic struct goes to C.
#[repr(C)]
#[derive(Clone, Copy)]
pub struct ExtendedMplsLvpFecReading {
    pub outcome: Outcome,
    pub fields: ExtendedMplsLvpFec,
}

#[unsafe(no_mangle)]
pub extern "C" fn latchplume_read_extended_mpls_lvp_fec(
    s: &[u8],
    d: &Words,
) -> ExtendedMplsLvpFecReading
    ensures { answer_of result.outcome (extended_mpls_lvp_fec result.fields) ≡ read_at memo 2 1011 s.now d.now }
{
    let Reading { outcome, fields } = host::mpls::latchplume_read_extended_mpls_lvp_fec(s, d);
    ExtendedMplsLvpFecReading { outcome, fields }
}
