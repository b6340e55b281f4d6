// Made by layouts/make from layouts/table.
// MPLS: the labels of a packet, and the path that it takes.
// Each layout has a function of its own, by whose name C asks for it.
ghost use Rattle.std.specs.Prelude.{◌≡◌};
ghost use Rattle.reading.specs.Layout.{memo};
ghost use Rattle.xdr.specs.Shown.{answer_of};
ghost use Rattle.flow_layouts.specs.Shown.{extended_mpls, extended_mpls_tunnel, extended_mpls_vc, extended_mpls_fec, extended_mpls_lvp_fec};
ghost use Rattle.fields.specs.Shown.{read_at};

use fields::ask::read;
use fields::descriptor::Words;
use flow_layouts::mpls::{
    ExtendedMpls, ExtendedMplsFec, ExtendedMplsLvpFec, ExtendedMplsTunnel, ExtendedMplsVc,
};
use layout::field::Mode;
use layout::record::Reading;

pub fn latchplume_read_extended_mpls(s: &[u8], d: &Words) -> Reading<ExtendedMpls>
    ensures { answer_of result.outcome (extended_mpls result.fields) ≡ read_at memo 2 1006 s.now d.now }
{
    read(s, d, 2, 1006, Mode::Memo)
}

pub fn latchplume_read_extended_mpls_tunnel(s: &[u8], d: &Words) -> Reading<ExtendedMplsTunnel>
    ensures { answer_of result.outcome (extended_mpls_tunnel result.fields) ≡ read_at memo 2 1008 s.now d.now }
{
    read(s, d, 2, 1008, Mode::Memo)
}

pub fn latchplume_read_extended_mpls_vc(s: &[u8], d: &Words) -> Reading<ExtendedMplsVc>
    ensures { answer_of result.outcome (extended_mpls_vc result.fields) ≡ read_at memo 2 1009 s.now d.now }
{
    read(s, d, 2, 1009, Mode::Memo)
}

pub fn latchplume_read_extended_mpls_fec(s: &[u8], d: &Words) -> Reading<ExtendedMplsFec>
    ensures { answer_of result.outcome (extended_mpls_fec result.fields) ≡ read_at memo 2 1010 s.now d.now }
{
    read(s, d, 2, 1010, Mode::Memo)
}

pub fn latchplume_read_extended_mpls_lvp_fec(s: &[u8], d: &Words) -> Reading<ExtendedMplsLvpFec>
    ensures { answer_of result.outcome (extended_mpls_lvp_fec result.fields) ≡ read_at memo 2 1011 s.now d.now }
{
    read(s, d, 2, 1011, Mode::Memo)
}
