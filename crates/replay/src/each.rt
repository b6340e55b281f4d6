// The fields of each descriptor that a call left, by the field reading of its kind and format; those that stay raw, and PDUs, have none.
ghost use Rattle.std.specs.Prelude.{◌*◌, ◌≤◌, ◌≡◌, length};
ghost use Rattle.reading.specs.Sizes.{descriptor_words};

use crate::{print, values};
use datagram::decode::Answer;
use fields::descriptor::Words;
use host::{extended, heads, mpls, polled, sampled, wireless};
use std::io;

fn wireless_record(rt: &impl Print, s: &[u8], d: &Words, format: u32) -> io::Result<()> {
    match format {
        1013 => values::reading(rt, wireless::latchplume_read_extended_80211_payload(s, d)),
        1014 => values::reading(rt, wireless::latchplume_read_extended_80211_rx(s, d)),
        1015 => values::reading(rt, wireless::latchplume_read_extended_80211_tx(s, d)),
        1016 => values::reading(
            rt,
            wireless::latchplume_read_extended_80211_aggregation(s, d),
        ),
        _ => Ok(()),
    }
}

fn extended_record(rt: &impl Print, s: &[u8], d: &Words, format: u32) -> io::Result<()> {
    match format {
        1001 => values::reading(rt, extended::latchplume_read_extended_switch(s, d)),
        1002 => values::reading(rt, extended::latchplume_read_extended_router(s, d)),
        1003 => values::reading(rt, extended::latchplume_read_extended_gateway(s, d)),
        1004 => values::reading(rt, extended::latchplume_read_extended_user(s, d)),
        1005 => values::reading(rt, extended::latchplume_read_extended_url(s, d)),
        1006 => values::reading(rt, mpls::latchplume_read_extended_mpls(s, d)),
        1007 => values::reading(rt, extended::latchplume_read_extended_nat(s, d)),
        1008 => values::reading(rt, mpls::latchplume_read_extended_mpls_tunnel(s, d)),
        1009 => values::reading(rt, mpls::latchplume_read_extended_mpls_vc(s, d)),
        1010 => values::reading(rt, mpls::latchplume_read_extended_mpls_fec(s, d)),
        1011 => values::reading(rt, mpls::latchplume_read_extended_mpls_lvp_fec(s, d)),
        1012 => values::reading(rt, extended::latchplume_read_extended_vlan_tunnel(s, d)),
        _ => wireless_record(rt, s, d, format),
    }
}

fn flow_record(rt: &impl Print, s: &[u8], d: &Words, format: u32) -> io::Result<()> {
    match format {
        1 => values::reading(rt, sampled::latchplume_read_sampled_header(s, d)),
        2 => values::reading(rt, host_base::latchplume_read_sampled_ethernet_base(s, d)),
        3 => values::reading(rt, sampled::latchplume_read_sampled_ipv4(s, d)),
        4 => values::reading(rt, sampled::latchplume_read_sampled_ipv6(s, d)),
        _ => extended_record(rt, s, d, format),
    }
}

fn counter_record(rt: &impl Print, s: &[u8], d: &Words, format: u32) -> io::Result<()> {
    match format {
        1 => values::reading(rt, polled::latchplume_read_generic_interface_counters(s, d)),
        2 => values::reading(
            rt,
            polled::latchplume_read_ethernet_interface_counters(s, d),
        ),
        3 => values::reading(rt, polled::latchplume_read_token_ring_counters(s, d)),
        4 => values::reading(rt, polled::latchplume_read_vg100_interface_counters(s, d)),
        5 => values::reading(rt, polled::latchplume_read_vlan_counters(s, d)),
        1001 => values::reading(rt, polled::latchplume_read_processor_counters(s, d)),
        _ => Ok(()),
    }
}

fn sample(rt: &impl Print, s: &[u8], d: &Words, format: u32) -> io::Result<()> {
    match format {
        1 => values::reading(rt, heads::latchplume_read_flow_sample(s, d)),
        2 => values::reading(rt, heads::latchplume_read_counters_sample(s, d)),
        3 => values::reading(rt, heads::latchplume_read_flow_sample_expanded(s, d)),
        4 => values::reading(rt, heads::latchplume_read_counters_sample_expanded(s, d)),
        5 => values::reading(rt, heads::latchplume_read_discarded_packet(s, d)),
        _ => Ok(()),
    }
}

// Kinds and formats are the numbers of the store's words, as C has them; each stands here once, so an enum of them would be no plainer.
fn descriptor(rt: &impl Print, s: &[u8], d: &Words) -> io::Result<()> {
    let x = fields::descriptor::descriptor(d);
    let format = x.format.0;
    match x.kind {
        0 => values::reading(rt, heads::latchplume_read_header(s, d)),
        1 => sample(rt, s, d, format),
        2 => flow_record(rt, s, d, format),
        3 => counter_record(rt, s, d, format),
        _ => Ok(()),
    }
}

// The end of a line: the fields of the descriptors that a call leaves.
pub fn left(rt: &impl Print, s: &[u8], a: Answer, store: &[u32]) -> io::Result<()>
    requires { a.code ≡ 0 → descriptor_words * a.needed ≤ length store.now }
{
    for words in print::descriptors(a, store) {
        descriptor(rt, s, words)?;
    }
    println!(rt; "")
}
