// The fields of each flow record: in the order of the memo, by their names.
use crate::values::{Shown, show_each};
use flow_layouts::extended::{
    ExtendedGateway, ExtendedNat, ExtendedRouter, ExtendedSwitch, ExtendedUrl, ExtendedUser,
    ExtendedVlanTunnel,
};
use flow_layouts::mpls::{
    ExtendedMpls, ExtendedMplsFec, ExtendedMplsLvpFec, ExtendedMplsTunnel, ExtendedMplsVc,
};
use flow_layouts::sampled::{SampledEthernet, SampledHeader, SampledIpv4, SampledIpv6};
use flow_layouts::wireless::{
    Extended80211Aggregation, Extended80211Payload, Extended80211Rx, Extended80211Tx,
};
use std::io;

impl Shown for SampledHeader {
    fn show(self, rt: &impl Print) -> io::Result<()> {
        show_each!(rt, self; protocol, frame_length, stripped, header)
    }
}

impl Shown for SampledEthernet {
    fn show(self, rt: &impl Print) -> io::Result<()> {
        show_each!(rt, self; length, src_mac, dst_mac, eth_type)
    }
}

impl Shown for SampledIpv4 {
    fn show(self, rt: &impl Print) -> io::Result<()> {
        show_each!(rt, self; length, protocol, src_ip, dst_ip, src_port, dst_port, tcp_flags, tos)
    }
}

impl Shown for SampledIpv6 {
    fn show(self, rt: &impl Print) -> io::Result<()> {
        show_each!(
            rt, self;
            length, protocol, src_ip, dst_ip, src_port, dst_port, tcp_flags, priority
        )
    }
}

impl Shown for ExtendedSwitch {
    fn show(self, rt: &impl Print) -> io::Result<()> {
        show_each!(rt, self; src_vlan, src_priority, dst_vlan, dst_priority)
    }
}

impl Shown for ExtendedRouter {
    fn show(self, rt: &impl Print) -> io::Result<()> {
        show_each!(rt, self; next_hop, src_mask_len, dst_mask_len)
    }
}

impl Shown for ExtendedGateway {
    fn show(self, rt: &impl Print) -> io::Result<()> {
        show_each!(
            rt, self;
            next_hop, as_number, src_as, src_peer_as, dst_as_path, communities, local_pref
        )
    }
}

impl Shown for ExtendedUser {
    fn show(self, rt: &impl Print) -> io::Result<()> {
        show_each!(rt, self; src_charset, src_user, dst_charset, dst_user)
    }
}

impl Shown for ExtendedUrl {
    fn show(self, rt: &impl Print) -> io::Result<()> {
        show_each!(rt, self; direction, url, host)
    }
}

impl Shown for ExtendedMpls {
    fn show(self, rt: &impl Print) -> io::Result<()> {
        show_each!(rt, self; next_hop, in_stack, out_stack)
    }
}

impl Shown for ExtendedNat {
    fn show(self, rt: &impl Print) -> io::Result<()> {
        show_each!(rt, self; src_address, dst_address)
    }
}

impl Shown for ExtendedMplsTunnel {
    fn show(self, rt: &impl Print) -> io::Result<()> {
        show_each!(rt, self; tunnel_lsp_name, tunnel_id, tunnel_cos)
    }
}

impl Shown for ExtendedMplsVc {
    fn show(self, rt: &impl Print) -> io::Result<()> {
        show_each!(rt, self; vc_instance_name, vll_vc_id, vc_label, vc_cos)
    }
}

impl Shown for ExtendedMplsFec {
    fn show(self, rt: &impl Print) -> io::Result<()> {
        show_each!(rt, self; fec_addr_prefix, fec_prefix_len)
    }
}

impl Shown for ExtendedMplsLvpFec {
    fn show(self, rt: &impl Print) -> io::Result<()> {
        show_each!(rt, self; mpls_fec_addr_prefix_length)
    }
}

impl Shown for ExtendedVlanTunnel {
    fn show(self, rt: &impl Print) -> io::Result<()> {
        show_each!(rt, self; stack)
    }
}

impl Shown for Extended80211Payload {
    fn show(self, rt: &impl Print) -> io::Result<()> {
        show_each!(rt, self; cipher_suite, data)
    }
}

impl Shown for Extended80211Rx {
    fn show(self, rt: &impl Print) -> io::Result<()> {
        show_each!(rt, self; ssid, bssid, version, channel, speed, rsni, rcpi, packet_duration)
    }
}

impl Shown for Extended80211Tx {
    fn show(self, rt: &impl Print) -> io::Result<()> {
        show_each!(
            rt, self;
            ssid, bssid, version, transmissions, packet_duration, retrans_duration, channel, speed,
            power
        )
    }
}

impl Shown for Extended80211Aggregation {
    fn show(self, rt: &impl Print) -> io::Result<()> {
        show_each!(rt, self; pdu_count)
    }
}
