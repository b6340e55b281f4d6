// Made by layouts/make from layouts/table.
// What a switch, a router or a server adds to a sampled packet.
#![tactic(auto, unfolding(reading::specs::Answer::layout_of, reading::specs::Layout::flows, reading::specs::Cursor::fixed, reading::specs::Cursor::read_item, reading::proofs::Fields::field_out, reading::proofs::Fields::fields_out))]

ghost use Rattle.reading.specs.Answer.{layout_of};
ghost use Rattle.flow_layouts.specs.Shown.{extended_switch, extended_router, extended_gateway, extended_user, extended_url, extended_nat, extended_vlan_tunnel};

use crate::parts::Route;
use layout::field::Mode;
use layout::record::Record;
use layout::{field, lists};
use xdr::{Address, Cursor, Read, Span};

// Format 1001: the VLANs and priorities of a switched packet.
#[repr(C)]
#[derive(Clone, Copy, Default)]
pub struct ExtendedSwitch {
    pub src_vlan: u32,
    pub src_priority: u32,
    pub dst_vlan: u32,
    pub dst_priority: u32,
}

impl Record for ExtendedSwitch {
    ghost layout = { λ mode. layout_of mode 2 1001 };

    ghost values = { extended_switch };

    fn zero() -> ExtendedSwitch {
        ExtendedSwitch::default()
    }

    fn read(c: Cursor, s: &[u8], _mode: Mode) -> Read<ExtendedSwitch> {
        let ([src_vlan, src_priority, dst_vlan, dst_priority], c) = field::words::<4>(c, s)?;
        let fields = ExtendedSwitch {
            src_vlan,
            src_priority,
            dst_vlan,
            dst_priority,
        };
        Ok((fields, c))
    }
}

// Format 1002: the next hop of a routed packet, and the masks of its ends.
#[repr(C)]
#[derive(Clone, Copy, Default)]
pub struct ExtendedRouter {
    pub next_hop: Address,
    pub src_mask_len: u32,
    pub dst_mask_len: u32,
}

impl Record for ExtendedRouter {
    ghost layout = { λ mode. layout_of mode 2 1002 };

    ghost values = { extended_router };

    fn zero() -> ExtendedRouter {
        ExtendedRouter::default()
    }

    fn read(c: Cursor, s: &[u8], _mode: Mode) -> Read<ExtendedRouter> {
        let (next_hop, c) = c.parse_address(s)?;
        let ([src_mask_len, dst_mask_len], c) = field::words::<2>(c, s)?;
        let fields = ExtendedRouter {
            next_hop,
            src_mask_len,
            dst_mask_len,
        };
        Ok((fields, c))
    }
}

// Format 1003: the BGP route of a packet.
#[repr(C)]
#[derive(Clone, Copy, Default)]
pub struct ExtendedGateway {
    pub next_hop: Address,
    pub as_number: u32,
    pub src_as: u32,
    pub src_peer_as: u32,
    pub dst_as_path: Span,
    pub communities: Span,
    pub local_pref: u32,
}

impl Record for ExtendedGateway {
    ghost layout = { λ mode. layout_of mode 2 1003 };

    ghost values = { extended_gateway };

    fn zero() -> ExtendedGateway {
        ExtendedGateway::default()
    }

    fn read(c: Cursor, s: &[u8], mode: Mode) -> Read<ExtendedGateway> {
        let (next_hop, c) = c.parse_address(s)?;
        let ([as_number, src_as, src_peer_as], c) = field::words::<3>(c, s)?;
        let (route, c) = Route::read(c, s, mode)?;
        let fields = ExtendedGateway {
            next_hop,
            as_number,
            src_as,
            src_peer_as,
            dst_as_path: route.dst_as_path,
            communities: route.communities,
            local_pref: route.local_pref,
        };
        Ok((fields, c))
    }
}

// Format 1004: the users at both ends of a packet.
#[repr(C)]
#[derive(Clone, Copy, Default)]
pub struct ExtendedUser {
    pub src_charset: u32,
    pub src_user: Span,
    pub dst_charset: u32,
    pub dst_user: Span,
}

impl Record for ExtendedUser {
    ghost layout = { λ mode. layout_of mode 2 1004 };

    ghost values = { extended_user };

    fn zero() -> ExtendedUser {
        ExtendedUser::default()
    }

    fn read(c: Cursor, s: &[u8], _mode: Mode) -> Read<ExtendedUser> {
        let (src_charset, c) = c.read_u32(s)?;
        let (src_user, c) = c.read_string(s)?;
        let (dst_charset, c) = c.read_u32(s)?;
        let (dst_user, c) = c.read_string(s)?;
        let fields = ExtendedUser {
            src_charset,
            src_user,
            dst_charset,
            dst_user,
        };
        Ok((fields, c))
    }
}

// Format 1005: an HTTP request; direction 1 is the source's, 2 the destination's.
#[repr(C)]
#[derive(Clone, Copy, Default)]
pub struct ExtendedUrl {
    pub direction: u32,
    pub url: Span,
    pub host: Span,
}

impl Record for ExtendedUrl {
    ghost layout = { λ mode. layout_of mode 2 1005 };

    ghost values = { extended_url };

    fn zero() -> ExtendedUrl {
        ExtendedUrl::default()
    }

    fn read(c: Cursor, s: &[u8], _mode: Mode) -> Read<ExtendedUrl> {
        let (direction, c) = c.read_u32(s)?;
        let (url, c) = c.read_string(s)?;
        let (host, c) = c.read_string(s)?;
        let fields = ExtendedUrl {
            direction,
            url,
            host,
        };
        Ok((fields, c))
    }
}

// Format 1007: a packet's addresses behind a translation.
#[repr(C)]
#[derive(Clone, Copy, Default)]
pub struct ExtendedNat {
    pub src_address: Address,
    pub dst_address: Address,
}

impl Record for ExtendedNat {
    ghost layout = { λ mode. layout_of mode 2 1007 };

    ghost values = { extended_nat };

    fn zero() -> ExtendedNat {
        ExtendedNat::default()
    }

    fn read(c: Cursor, s: &[u8], _mode: Mode) -> Read<ExtendedNat> {
        let (src_address, c) = c.parse_address(s)?;
        let (dst_address, c) = c.parse_address(s)?;
        let fields = ExtendedNat {
            src_address,
            dst_address,
        };
        Ok((fields, c))
    }
}

// Format 1012: the VLAN tags that were taken off, each with its TPID above its TCI.
#[repr(C)]
#[derive(Clone, Copy, Default)]
pub struct ExtendedVlanTunnel {
    pub stack: Span,
}

impl Record for ExtendedVlanTunnel {
    ghost layout = { λ mode. layout_of mode 2 1012 };

    ghost values = { extended_vlan_tunnel };

    fn zero() -> ExtendedVlanTunnel {
        ExtendedVlanTunnel::default()
    }

    fn read(c: Cursor, s: &[u8], _mode: Mode) -> Read<ExtendedVlanTunnel> {
        let (stack, c) = lists::list(c, s)?;
        let fields = ExtendedVlanTunnel { stack };
        Ok((fields, c))
    }
}
