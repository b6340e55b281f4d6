// Made by layouts/make from layouts/table.
// MPLS: the labels of a packet, and the path that it takes.
#![tactic(auto, unfolding(reading::specs::Answer::layout_of, reading::specs::Layout::flows, reading::specs::Cursor::fixed, reading::specs::Cursor::read_item, reading::proofs::Fields::field_out, reading::proofs::Fields::fields_out))]

ghost use Rattle.reading.specs.Answer.{layout_of};
ghost use Rattle.flow_layouts.specs.Shown.{extended_mpls, extended_mpls_tunnel, extended_mpls_vc, extended_mpls_fec, extended_mpls_lvp_fec};

use layout::field::Mode;
use layout::record::Record;
use layout::{field, lists};
use xdr::{Address, Cursor, Read, Span};

// Format 1006: the MPLS label stacks of a packet.
#[repr(C)]
#[derive(Clone, Copy, Default)]
pub struct ExtendedMpls {
    pub next_hop: Address,
    pub in_stack: Span,
    pub out_stack: Span,
}

impl Record for ExtendedMpls {
    ghost layout = { λ mode. layout_of mode 2 1006 };

    ghost values = { extended_mpls };

    fn zero() -> ExtendedMpls {
        ExtendedMpls::default()
    }

    fn read(c: Cursor, s: &[u8], _mode: Mode) -> Read<ExtendedMpls> {
        let (next_hop, c) = c.parse_address(s)?;
        let (in_stack, c) = lists::list(c, s)?;
        let (out_stack, c) = lists::list(c, s)?;
        let fields = ExtendedMpls {
            next_hop,
            in_stack,
            out_stack,
        };
        Ok((fields, c))
    }
}

// Format 1008: the MPLS tunnel.
#[repr(C)]
#[derive(Clone, Copy, Default)]
pub struct ExtendedMplsTunnel {
    pub tunnel_lsp_name: Span,
    pub tunnel_id: u32,
    pub tunnel_cos: u32,
}

impl Record for ExtendedMplsTunnel {
    ghost layout = { λ mode. layout_of mode 2 1008 };

    ghost values = { extended_mpls_tunnel };

    fn zero() -> ExtendedMplsTunnel {
        ExtendedMplsTunnel::default()
    }

    fn read(c: Cursor, s: &[u8], _mode: Mode) -> Read<ExtendedMplsTunnel> {
        let (tunnel_lsp_name, c) = c.read_string(s)?;
        let ([tunnel_id, tunnel_cos], c) = field::words::<2>(c, s)?;
        let fields = ExtendedMplsTunnel {
            tunnel_lsp_name,
            tunnel_id,
            tunnel_cos,
        };
        Ok((fields, c))
    }
}

// Format 1009: the MPLS virtual circuit.
#[repr(C)]
#[derive(Clone, Copy, Default)]
pub struct ExtendedMplsVc {
    pub vc_instance_name: Span,
    pub vll_vc_id: u32,
    pub vc_label: u32,
    pub vc_cos: u32,
}

impl Record for ExtendedMplsVc {
    ghost layout = { λ mode. layout_of mode 2 1009 };

    ghost values = { extended_mpls_vc };

    fn zero() -> ExtendedMplsVc {
        ExtendedMplsVc::default()
    }

    fn read(c: Cursor, s: &[u8], _mode: Mode) -> Read<ExtendedMplsVc> {
        let (vc_instance_name, c) = c.read_string(s)?;
        let ([vll_vc_id, vc_label, vc_cos], c) = field::words::<3>(c, s)?;
        let fields = ExtendedMplsVc {
            vc_instance_name,
            vll_vc_id,
            vc_label,
            vc_cos,
        };
        Ok((fields, c))
    }
}

// Format 1010: the forwarding equivalence class, as an address prefix.
#[repr(C)]
#[derive(Clone, Copy, Default)]
pub struct ExtendedMplsFec {
    pub fec_addr_prefix: Address,
    pub fec_prefix_len: u32,
}

impl Record for ExtendedMplsFec {
    ghost layout = { λ mode. layout_of mode 2 1010 };

    ghost values = { extended_mpls_fec };

    fn zero() -> ExtendedMplsFec {
        ExtendedMplsFec::default()
    }

    fn read(c: Cursor, s: &[u8], _mode: Mode) -> Read<ExtendedMplsFec> {
        let (fec_addr_prefix, c) = c.parse_address(s)?;
        let (fec_prefix_len, c) = c.read_u32(s)?;
        let fields = ExtendedMplsFec {
            fec_addr_prefix,
            fec_prefix_len,
        };
        Ok((fields, c))
    }
}

// Format 1011: the forwarding equivalence class, as a prefix length.
#[repr(C)]
#[derive(Clone, Copy, Default)]
pub struct ExtendedMplsLvpFec {
    pub mpls_fec_addr_prefix_length: u32,
}

impl Record for ExtendedMplsLvpFec {
    ghost layout = { λ mode. layout_of mode 2 1011 };

    ghost values = { extended_mpls_lvp_fec };

    fn zero() -> ExtendedMplsLvpFec {
        ExtendedMplsLvpFec::default()
    }

    fn read(c: Cursor, s: &[u8], _mode: Mode) -> Read<ExtendedMplsLvpFec> {
        let (mpls_fec_addr_prefix_length, c) = c.read_u32(s)?;
        let fields = ExtendedMplsLvpFec {
            mpls_fec_addr_prefix_length,
        };
        Ok((fields, c))
    }
}
