// Made by layouts/make from layouts/table.
// What was sampled: the packet's first bytes, or the fields of its header.
#![tactic(auto, unfolding(reading::specs::Answer::layout_of, reading::specs::Layout::flows, reading::specs::Cursor::fixed, reading::specs::Cursor::read_item, reading::proofs::Fields::field_out, reading::proofs::Fields::fields_out))]

ghost use Rattle.reading.specs.Answer.{layout_of};
ghost use Rattle.flow_layouts.specs.Shown.{sampled_header, sampled_ethernet, sampled_ipv4, sampled_ipv6};

use layout::field;
use layout::field::Mode;
use layout::record::Record;
use xdr::{Cursor, Read, Span};

// Format 1: the packet's first bytes, by the protocol of its header.
#[repr(C)]
#[derive(Clone, Copy, Default)]
pub struct SampledHeader {
    pub protocol: u32,
    pub frame_length: u32,
    pub stripped: u32,
    pub header: Span,
}

impl Record for SampledHeader {
    ghost layout = { λ mode. layout_of mode 2 1 };

    ghost values = { sampled_header };

    fn zero() -> SampledHeader {
        SampledHeader::default()
    }

    fn read(c: Cursor, s: &[u8], _mode: Mode) -> Read<SampledHeader> {
        let (protocol, c) = field::protocol(c, s)?;
        let ([frame_length, stripped], c) = field::words::<2>(c, s)?;
        let (header, c) = c.read_opaque(s)?;
        let fields = SampledHeader {
            protocol,
            frame_length,
            stripped,
            header,
        };
        Ok((fields, c))
    }
}

// Format 2: an Ethernet frame.
#[repr(C)]
#[derive(Clone, Copy, Default)]
pub struct SampledEthernet {
    pub length: u32,
    pub src_mac: [u8; 6],
    pub dst_mac: [u8; 6],
    pub eth_type: u32,
}

impl Record for SampledEthernet {
    ghost layout = { λ mode. layout_of mode 2 2 };

    ghost values = { sampled_ethernet };

    fn zero() -> SampledEthernet {
        SampledEthernet::default()
    }

    fn read(c: Cursor, s: &[u8], mode: Mode) -> Read<SampledEthernet> {
        let (length, c) = c.read_u32(s)?;
        let (src_mac, c) = field::six(c, s, mode)?;
        let (dst_mac, c) = field::six(c, s, mode)?;
        let (eth_type, c) = c.read_u32(s)?;
        let fields = SampledEthernet {
            length,
            src_mac,
            dst_mac,
            eth_type,
        };
        Ok((fields, c))
    }
}

// Format 3: an IPv4 packet. An address is its four bytes as one number, the first of them uppermost.
#[repr(C)]
#[derive(Clone, Copy, Default)]
pub struct SampledIpv4 {
    pub length: u32,
    pub protocol: u32,
    pub src_ip: u32,
    pub dst_ip: u32,
    pub src_port: u32,
    pub dst_port: u32,
    pub tcp_flags: u32,
    pub tos: u32,
}

impl Record for SampledIpv4 {
    ghost layout = { λ mode. layout_of mode 2 3 };

    ghost values = { sampled_ipv4 };

    fn zero() -> SampledIpv4 {
        SampledIpv4::default()
    }

    fn read(c: Cursor, s: &[u8], _mode: Mode) -> Read<SampledIpv4> {
        let (row, c) = field::words::<8>(c, s)?;
        let fields = SampledIpv4 {
            length: row[0],
            protocol: row[1],
            src_ip: row[2],
            dst_ip: row[3],
            src_port: row[4],
            dst_port: row[5],
            tcp_flags: row[6],
            tos: row[7],
        };
        Ok((fields, c))
    }
}

// Format 4: an IPv6 packet.
#[repr(C)]
#[derive(Clone, Copy, Default)]
pub struct SampledIpv6 {
    pub length: u32,
    pub protocol: u32,
    pub src_ip: [u8; 16],
    pub dst_ip: [u8; 16],
    pub src_port: u32,
    pub dst_port: u32,
    pub tcp_flags: u32,
    pub priority: u32,
}

impl Record for SampledIpv6 {
    ghost layout = { λ mode. layout_of mode 2 4 };

    ghost values = { sampled_ipv6 };

    fn zero() -> SampledIpv6 {
        SampledIpv6::default()
    }

    fn read(c: Cursor, s: &[u8], _mode: Mode) -> Read<SampledIpv6> {
        let ([length, protocol], c) = field::words::<2>(c, s)?;
        let (src_ip, c) = c.read_fixed::<16>(s)?;
        let (dst_ip, c) = c.read_fixed::<16>(s)?;
        let ([src_port, dst_port, tcp_flags, priority], c) = field::words::<4>(c, s)?;
        let fields = SampledIpv6 {
            length,
            protocol,
            src_ip,
            dst_ip,
            src_port,
            dst_port,
            tcp_flags,
            priority,
        };
        Ok((fields, c))
    }
}
