// Made by layouts/make from layouts/table.
// 802.11: what was sent or received by radio.
#![tactic(auto, unfolding(reading::specs::Answer::layout_of, reading::specs::Layout::flows, reading::specs::Cursor::fixed, reading::specs::Cursor::read_item, reading::proofs::Fields::field_out, reading::proofs::Fields::fields_out))]

ghost use Rattle.reading.specs.Answer.{layout_of};
ghost use Rattle.flow_layouts.specs.Shown.{extended_80211_payload, extended_80211_rx, extended_80211_tx, extended_80211_aggregation};

use crate::parts::Network;
use layout::field;
use layout::field::Mode;
use layout::record::Record;
use xdr::{Cursor, Read, Span};

// Format 1013: an 802.11 payload before it was encrypted.
#[repr(C)]
#[derive(Clone, Copy, Default)]
pub struct Extended80211Payload {
    pub cipher_suite: u32,
    pub data: Span,
}

impl Record for Extended80211Payload {
    ghost layout = { λ mode. layout_of mode 2 1013 };

    ghost values = { extended_80211_payload };

    fn zero() -> Extended80211Payload {
        Extended80211Payload::default()
    }

    fn read(c: Cursor, s: &[u8], _mode: Mode) -> Read<Extended80211Payload> {
        let (cipher_suite, c) = c.read_u32(s)?;
        let (data, c) = c.read_opaque(s)?;
        let fields = Extended80211Payload { cipher_suite, data };
        Ok((fields, c))
    }
}

// Format 1014: how an 802.11 packet was received.
#[repr(C)]
#[derive(Clone, Copy, Default)]
pub struct Extended80211Rx {
    pub ssid: Span,
    pub bssid: [u8; 6],
    pub version: u32,
    pub channel: u32,
    pub speed: u64,
    pub rsni: u32,
    pub rcpi: u32,
    pub packet_duration: u32,
}

impl Record for Extended80211Rx {
    ghost layout = { λ mode. layout_of mode 2 1014 };

    ghost values = { extended_80211_rx };

    fn zero() -> Extended80211Rx {
        Extended80211Rx::default()
    }

    fn read(c: Cursor, s: &[u8], mode: Mode) -> Read<Extended80211Rx> {
        let (Network { ssid, bssid }, c) = Network::read(c, s, mode)?;
        let ([version, channel], c) = field::words::<2>(c, s)?;
        let (speed, c) = c.read_u64(s)?;
        let ([rsni, rcpi, packet_duration], c) = field::words::<3>(c, s)?;
        let fields = Extended80211Rx {
            ssid,
            bssid,
            version,
            channel,
            speed,
            rsni,
            rcpi,
            packet_duration,
        };
        Ok((fields, c))
    }
}

// Format 1015: how an 802.11 packet was sent.
#[repr(C)]
#[derive(Clone, Copy, Default)]
pub struct Extended80211Tx {
    pub ssid: Span,
    pub bssid: [u8; 6],
    pub version: u32,
    pub transmissions: u32,
    pub packet_duration: u32,
    pub retrans_duration: u32,
    pub channel: u32,
    pub speed: u64,
    pub power: u32,
}

impl Record for Extended80211Tx {
    ghost layout = { λ mode. layout_of mode 2 1015 };

    ghost values = { extended_80211_tx };

    fn zero() -> Extended80211Tx {
        Extended80211Tx::default()
    }

    fn read(c: Cursor, s: &[u8], mode: Mode) -> Read<Extended80211Tx> {
        let (Network { ssid, bssid }, c) = Network::read(c, s, mode)?;
        let (row, c) = field::words::<5>(c, s)?;
        let (speed, c) = c.read_u64(s)?;
        let (power, c) = c.read_u32(s)?;
        let fields = Extended80211Tx {
            ssid,
            bssid,
            version: row[0],
            transmissions: row[1],
            packet_duration: row[2],
            retrans_duration: row[3],
            channel: row[4],
            speed,
            power,
        };
        Ok((fields, c))
    }
}

// Format 1016: an 802.11 aggregation: how many PDUs follow. They and their records have descriptors of their own.
#[repr(C)]
#[derive(Clone, Copy, Default)]
pub struct Extended80211Aggregation {
    pub pdu_count: u32,
}

impl Record for Extended80211Aggregation {
    ghost layout = { λ mode. layout_of mode 2 1016 };

    ghost values = { extended_80211_aggregation };

    fn zero() -> Extended80211Aggregation {
        Extended80211Aggregation::default()
    }

    fn read(c: Cursor, s: &[u8], _mode: Mode) -> Read<Extended80211Aggregation> {
        let (pdu_count, c) = c.read_u32(s)?;
        let fields = Extended80211Aggregation { pdu_count };
        Ok((fields, c))
    }
}
