// Made by tools/exports from crates/host.
// What a switch, a router or a server adds to a sampled packet.
// Each layout has a function of its own, by whose name C asks for it.
ghost use Rattle.std.specs.Prelude.{◌≡◌};
ghost use Rattle.reading.specs.Layout.{memo};
ghost use Rattle.xdr.specs.Shown.{answer_of};
ghost use Rattle.flow_layouts.specs.Shown.{extended_switch, extended_router, extended_gateway, extended_user, extended_url, extended_nat, extended_vlan_tunnel};
ghost use Rattle.fields.specs.Shown.{read_at};

use fields::descriptor::Words;
use flow_layouts::extended::{
    ExtendedGateway, ExtendedNat, ExtendedRouter, ExtendedSwitch, ExtendedUrl, ExtendedUser,
    ExtendedVlanTunnel,
};
use layout::record::Reading;
use xdr::Outcome;

// What C gets of a reading of ExtendedSwitch, since no generic struct goes to C.
#[repr(C)]
#[derive(Clone, Copy)]
pub struct ExtendedSwitchReading {
    pub outcome: Outcome,
    pub fields: ExtendedSwitch,
}

#[unsafe(no_mangle)]
pub extern "C" fn latchplume_read_extended_switch(s: &[u8], d: &Words) -> ExtendedSwitchReading
    ensures { answer_of result.outcome (extended_switch result.fields) ≡ read_at memo 2 1001 s.now d.now }
{
    let Reading { outcome, fields } = host::extended::latchplume_read_extended_switch(s, d);
    ExtendedSwitchReading { outcome, fields }
}

// What C gets of a reading of ExtendedRouter, since no generic struct goes to C.
#[repr(C)]
#[derive(Clone, Copy)]
pub struct ExtendedRouterReading {
    pub outcome: Outcome,
    pub fields: ExtendedRouter,
}

#[unsafe(no_mangle)]
pub extern "C" fn latchplume_read_extended_router(s: &[u8], d: &Words) -> ExtendedRouterReading
    ensures { answer_of result.outcome (extended_router result.fields) ≡ read_at memo 2 1002 s.now d.now }
{
    let Reading { outcome, fields } = host::extended::latchplume_read_extended_router(s, d);
    ExtendedRouterReading { outcome, fields }
}

// What C gets of a reading of ExtendedGateway, since no generic struct goes to C.
#[repr(C)]
#[derive(Clone, Copy)]
pub struct ExtendedGatewayReading {
    pub outcome: Outcome,
    pub fields: ExtendedGateway,
}

#[unsafe(no_mangle)]
pub extern "C" fn latchplume_read_extended_gateway(s: &[u8], d: &Words) -> ExtendedGatewayReading
    ensures { answer_of result.outcome (extended_gateway result.fields) ≡ read_at memo 2 1003 s.now d.now }
{
    let Reading { outcome, fields } = host::extended::latchplume_read_extended_gateway(s, d);
    ExtendedGatewayReading { outcome, fields }
}

// What C gets of a reading of ExtendedUser, since no generic struct goes to C.
#[repr(C)]
#[derive(Clone, Copy)]
pub struct ExtendedUserReading {
    pub outcome: Outcome,
    pub fields: ExtendedUser,
}

#[unsafe(no_mangle)]
pub extern "C" fn latchplume_read_extended_user(s: &[u8], d: &Words) -> ExtendedUserReading
    ensures { answer_of result.outcome (extended_user result.fields) ≡ read_at memo 2 1004 s.now d.now }
{
    let Reading { outcome, fields } = host::extended::latchplume_read_extended_user(s, d);
    ExtendedUserReading { outcome, fields }
}

// What C gets of a reading of ExtendedUrl, since no generic struct goes to C.
#[repr(C)]
#[derive(Clone, Copy)]
pub struct ExtendedUrlReading {
    pub outcome: Outcome,
    pub fields: ExtendedUrl,
}

#[unsafe(no_mangle)]
pub extern "C" fn latchplume_read_extended_url(s: &[u8], d: &Words) -> ExtendedUrlReading
    ensures { answer_of result.outcome (extended_url result.fields) ≡ read_at memo 2 1005 s.now d.now }
{
    let Reading { outcome, fields } = host::extended::latchplume_read_extended_url(s, d);
    ExtendedUrlReading { outcome, fields }
}

// What C gets of a reading of ExtendedNat, since no generic struct goes to C.
#[repr(C)]
#[derive(Clone, Copy)]
pub struct ExtendedNatReading {
    pub outcome: Outcome,
    pub fields: ExtendedNat,
}

#[unsafe(no_mangle)]
pub extern "C" fn latchplume_read_extended_nat(s: &[u8], d: &Words) -> ExtendedNatReading
    ensures { answer_of result.outcome (extended_nat result.fields) ≡ read_at memo 2 1007 s.now d.now }
{
    let Reading { outcome, fields } = host::extended::latchplume_read_extended_nat(s, d);
    ExtendedNatReading { outcome, fields }
}

// What C gets of a reading of ExtendedVlanTunnel, since no generic struct goes to C.
#[repr(C)]
#[derive(Clone, Copy)]
pub struct ExtendedVlanTunnelReading {
    pub outcome: Outcome,
    pub fields: ExtendedVlanTunnel,
}

#[unsafe(no_mangle)]
pub extern "C" fn latchplume_read_extended_vlan_tunnel(
    s: &[u8],
    d: &Words,
) -> ExtendedVlanTunnelReading
    ensures { answer_of result.outcome (extended_vlan_tunnel result.fields) ≡ read_at memo 2 1012 s.now d.now }
{
    let Reading { outcome, fields } = host::extended::latchplume_read_extended_vlan_tunnel(s, d);
    ExtendedVlanTunnelReading { outcome, fields }
}
