// Made by layouts/make from layouts/table.
// What a switch, a router or a server adds to a sampled packet.
// Each layout has a function of its own, by whose name C asks for it.
ghost use Rattle.std.specs.Prelude.{◌≡◌};
ghost use Rattle.reading.specs.Layout.{memo};
ghost use Rattle.xdr.specs.Shown.{answer_of};
ghost use Rattle.flow_layouts.specs.Shown.{extended_switch, extended_router, extended_gateway, extended_user, extended_url, extended_nat, extended_vlan_tunnel};
ghost use Rattle.fields.specs.Shown.{read_at};

use fields::ask::read;
use fields::descriptor::Words;
use flow_layouts::extended::{
    ExtendedGateway, ExtendedNat, ExtendedRouter, ExtendedSwitch, ExtendedUrl, ExtendedUser,
    ExtendedVlanTunnel,
};
use layout::field::Mode;
use layout::record::Reading;

pub fn latchplume_read_extended_switch(s: &[u8], d: &Words) -> Reading<ExtendedSwitch>
    ensures { answer_of result.outcome (extended_switch result.fields) ≡ read_at memo 2 1001 s.now d.now }
{
    read(s, d, 2, 1001, Mode::Memo)
}

pub fn latchplume_read_extended_router(s: &[u8], d: &Words) -> Reading<ExtendedRouter>
    ensures { answer_of result.outcome (extended_router result.fields) ≡ read_at memo 2 1002 s.now d.now }
{
    read(s, d, 2, 1002, Mode::Memo)
}

pub fn latchplume_read_extended_gateway(s: &[u8], d: &Words) -> Reading<ExtendedGateway>
    ensures { answer_of result.outcome (extended_gateway result.fields) ≡ read_at memo 2 1003 s.now d.now }
{
    read(s, d, 2, 1003, Mode::Memo)
}

pub fn latchplume_read_extended_user(s: &[u8], d: &Words) -> Reading<ExtendedUser>
    ensures { answer_of result.outcome (extended_user result.fields) ≡ read_at memo 2 1004 s.now d.now }
{
    read(s, d, 2, 1004, Mode::Memo)
}

pub fn latchplume_read_extended_url(s: &[u8], d: &Words) -> Reading<ExtendedUrl>
    ensures { answer_of result.outcome (extended_url result.fields) ≡ read_at memo 2 1005 s.now d.now }
{
    read(s, d, 2, 1005, Mode::Memo)
}

pub fn latchplume_read_extended_nat(s: &[u8], d: &Words) -> Reading<ExtendedNat>
    ensures { answer_of result.outcome (extended_nat result.fields) ≡ read_at memo 2 1007 s.now d.now }
{
    read(s, d, 2, 1007, Mode::Memo)
}

pub fn latchplume_read_extended_vlan_tunnel(s: &[u8], d: &Words) -> Reading<ExtendedVlanTunnel>
    ensures { answer_of result.outcome (extended_vlan_tunnel result.fields) ≡ read_at memo 2 1012 s.now d.now }
{
    read(s, d, 2, 1012, Mode::Memo)
}
