// Made by layouts/make from layouts/table.
// What was polled: the counters of an interface, of a VLAN and of the processor.
#![tactic(auto, unfolding(reading::specs::Answer::layout_of, reading::specs::Layout::counters, crate::specs::Sizes::sizes_of))]

ghost use Rattle.reading.specs.Answer.{layout_of};
ghost use Rattle.counters.specs.Shown.{generic_interface_counters, ethernet_interface_counters, token_ring_counters, vg100_interface_counters, vlan_counters, processor_counters};

use crate::data;
use layout::field::Mode;
use layout::record::Record;
use load;
use xdr::{Cursor, Read};

// Format 1: the counters of any interface, by RFC 2233.
#[repr(C)]
#[derive(Clone, Copy, Default)]
pub struct GenericInterfaceCounters {
    pub if_index: u32,
    pub if_type: u32,
    pub if_speed: u64,
    pub if_direction: u32,
    pub if_status: u32,
    pub if_in_octets: u64,
    pub if_in_ucast_pkts: u32,
    pub if_in_multicast_pkts: u32,
    pub if_in_broadcast_pkts: u32,
    pub if_in_discards: u32,
    pub if_in_errors: u32,
    pub if_in_unknown_protos: u32,
    pub if_out_octets: u64,
    pub if_out_ucast_pkts: u32,
    pub if_out_multicast_pkts: u32,
    pub if_out_broadcast_pkts: u32,
    pub if_out_discards: u32,
    pub if_out_errors: u32,
    pub if_promiscuous_mode: u32,
}

impl Record for GenericInterfaceCounters {
    ghost layout = { λ mode. layout_of mode 3 1 };

    ghost values = { generic_interface_counters };

    fn zero() -> GenericInterfaceCounters {
        GenericInterfaceCounters::default()
    }

    fn read(c: Cursor, s: &[u8], _mode: Mode) -> Read<GenericInterfaceCounters> {
        let (at, c) = data::read(c, s, 1)?;
        let fields = GenericInterfaceCounters {
            if_index: load::be32(s, at),
            if_type: load::be32(s, at + 4),
            if_speed: load::be64(s, at + 8),
            if_direction: load::be32(s, at + 16),
            if_status: load::be32(s, at + 20),
            if_in_octets: load::be64(s, at + 24),
            if_in_ucast_pkts: load::be32(s, at + 32),
            if_in_multicast_pkts: load::be32(s, at + 36),
            if_in_broadcast_pkts: load::be32(s, at + 40),
            if_in_discards: load::be32(s, at + 44),
            if_in_errors: load::be32(s, at + 48),
            if_in_unknown_protos: load::be32(s, at + 52),
            if_out_octets: load::be64(s, at + 56),
            if_out_ucast_pkts: load::be32(s, at + 64),
            if_out_multicast_pkts: load::be32(s, at + 68),
            if_out_broadcast_pkts: load::be32(s, at + 72),
            if_out_discards: load::be32(s, at + 76),
            if_out_errors: load::be32(s, at + 80),
            if_promiscuous_mode: load::be32(s, at + 84),
        };
        Ok((fields, c))
    }
}

// Format 2: the counters of an Ethernet interface, by RFC 2358.
#[repr(C)]
#[derive(Clone, Copy, Default)]
pub struct EthernetInterfaceCounters {
    pub dot3_stats_alignment_errors: u32,
    pub dot3_stats_fcs_errors: u32,
    pub dot3_stats_single_collision_frames: u32,
    pub dot3_stats_multiple_collision_frames: u32,
    pub dot3_stats_sqe_test_errors: u32,
    pub dot3_stats_deferred_transmissions: u32,
    pub dot3_stats_late_collisions: u32,
    pub dot3_stats_excessive_collisions: u32,
    pub dot3_stats_internal_mac_transmit_errors: u32,
    pub dot3_stats_carrier_sense_errors: u32,
    pub dot3_stats_frame_too_longs: u32,
    pub dot3_stats_internal_mac_receive_errors: u32,
    pub dot3_stats_symbol_errors: u32,
}

impl Record for EthernetInterfaceCounters {
    ghost layout = { λ mode. layout_of mode 3 2 };

    ghost values = { ethernet_interface_counters };

    fn zero() -> EthernetInterfaceCounters {
        EthernetInterfaceCounters::default()
    }

    fn read(c: Cursor, s: &[u8], _mode: Mode) -> Read<EthernetInterfaceCounters> {
        let (at, c) = data::read(c, s, 2)?;
        let fields = EthernetInterfaceCounters {
            dot3_stats_alignment_errors: load::be32(s, at),
            dot3_stats_fcs_errors: load::be32(s, at + 4),
            dot3_stats_single_collision_frames: load::be32(s, at + 8),
            dot3_stats_multiple_collision_frames: load::be32(s, at + 12),
            dot3_stats_sqe_test_errors: load::be32(s, at + 16),
            dot3_stats_deferred_transmissions: load::be32(s, at + 20),
            dot3_stats_late_collisions: load::be32(s, at + 24),
            dot3_stats_excessive_collisions: load::be32(s, at + 28),
            dot3_stats_internal_mac_transmit_errors: load::be32(s, at + 32),
            dot3_stats_carrier_sense_errors: load::be32(s, at + 36),
            dot3_stats_frame_too_longs: load::be32(s, at + 40),
            dot3_stats_internal_mac_receive_errors: load::be32(s, at + 44),
            dot3_stats_symbol_errors: load::be32(s, at + 48),
        };
        Ok((fields, c))
    }
}

// Format 3: the counters of a token ring interface, by RFC 1748.
#[repr(C)]
#[derive(Clone, Copy, Default)]
pub struct TokenRingCounters {
    pub dot5_stats_line_errors: u32,
    pub dot5_stats_burst_errors: u32,
    pub dot5_stats_ac_errors: u32,
    pub dot5_stats_abort_trans_errors: u32,
    pub dot5_stats_internal_errors: u32,
    pub dot5_stats_lost_frame_errors: u32,
    pub dot5_stats_receive_congestions: u32,
    pub dot5_stats_frame_copied_errors: u32,
    pub dot5_stats_token_errors: u32,
    pub dot5_stats_soft_errors: u32,
    pub dot5_stats_hard_errors: u32,
    pub dot5_stats_signal_loss: u32,
    pub dot5_stats_transmit_beacons: u32,
    pub dot5_stats_recoverys: u32,
    pub dot5_stats_lobe_wires: u32,
    pub dot5_stats_removes: u32,
    pub dot5_stats_singles: u32,
    pub dot5_stats_freq_errors: u32,
}

impl Record for TokenRingCounters {
    ghost layout = { λ mode. layout_of mode 3 3 };

    ghost values = { token_ring_counters };

    fn zero() -> TokenRingCounters {
        TokenRingCounters::default()
    }

    fn read(c: Cursor, s: &[u8], _mode: Mode) -> Read<TokenRingCounters> {
        let (at, c) = data::read(c, s, 3)?;
        let fields = TokenRingCounters {
            dot5_stats_line_errors: load::be32(s, at),
            dot5_stats_burst_errors: load::be32(s, at + 4),
            dot5_stats_ac_errors: load::be32(s, at + 8),
            dot5_stats_abort_trans_errors: load::be32(s, at + 12),
            dot5_stats_internal_errors: load::be32(s, at + 16),
            dot5_stats_lost_frame_errors: load::be32(s, at + 20),
            dot5_stats_receive_congestions: load::be32(s, at + 24),
            dot5_stats_frame_copied_errors: load::be32(s, at + 28),
            dot5_stats_token_errors: load::be32(s, at + 32),
            dot5_stats_soft_errors: load::be32(s, at + 36),
            dot5_stats_hard_errors: load::be32(s, at + 40),
            dot5_stats_signal_loss: load::be32(s, at + 44),
            dot5_stats_transmit_beacons: load::be32(s, at + 48),
            dot5_stats_recoverys: load::be32(s, at + 52),
            dot5_stats_lobe_wires: load::be32(s, at + 56),
            dot5_stats_removes: load::be32(s, at + 60),
            dot5_stats_singles: load::be32(s, at + 64),
            dot5_stats_freq_errors: load::be32(s, at + 68),
        };
        Ok((fields, c))
    }
}

// Format 4: the counters of a 100BaseVG interface, by RFC 2020.
#[repr(C)]
#[derive(Clone, Copy, Default)]
pub struct Vg100InterfaceCounters {
    pub dot12_in_high_priority_frames: u32,
    pub dot12_in_high_priority_octets: u64,
    pub dot12_in_norm_priority_frames: u32,
    pub dot12_in_norm_priority_octets: u64,
    pub dot12_in_ipm_errors: u32,
    pub dot12_in_oversize_frame_errors: u32,
    pub dot12_in_data_errors: u32,
    pub dot12_in_null_addressed_frames: u32,
    pub dot12_out_high_priority_frames: u32,
    pub dot12_out_high_priority_octets: u64,
    pub dot12_transition_into_trainings: u32,
    pub dot12_hc_in_high_priority_octets: u64,
    pub dot12_hc_in_norm_priority_octets: u64,
    pub dot12_hc_out_high_priority_octets: u64,
}

impl Record for Vg100InterfaceCounters {
    ghost layout = { λ mode. layout_of mode 3 4 };

    ghost values = { vg100_interface_counters };

    fn zero() -> Vg100InterfaceCounters {
        Vg100InterfaceCounters::default()
    }

    fn read(c: Cursor, s: &[u8], _mode: Mode) -> Read<Vg100InterfaceCounters> {
        let (at, c) = data::read(c, s, 4)?;
        let fields = Vg100InterfaceCounters {
            dot12_in_high_priority_frames: load::be32(s, at),
            dot12_in_high_priority_octets: load::be64(s, at + 4),
            dot12_in_norm_priority_frames: load::be32(s, at + 12),
            dot12_in_norm_priority_octets: load::be64(s, at + 16),
            dot12_in_ipm_errors: load::be32(s, at + 24),
            dot12_in_oversize_frame_errors: load::be32(s, at + 28),
            dot12_in_data_errors: load::be32(s, at + 32),
            dot12_in_null_addressed_frames: load::be32(s, at + 36),
            dot12_out_high_priority_frames: load::be32(s, at + 40),
            dot12_out_high_priority_octets: load::be64(s, at + 44),
            dot12_transition_into_trainings: load::be32(s, at + 52),
            dot12_hc_in_high_priority_octets: load::be64(s, at + 56),
            dot12_hc_in_norm_priority_octets: load::be64(s, at + 64),
            dot12_hc_out_high_priority_octets: load::be64(s, at + 72),
        };
        Ok((fields, c))
    }
}

// Format 5: the counters of a VLAN.
#[repr(C)]
#[derive(Clone, Copy, Default)]
pub struct VlanCounters {
    pub vlan_id: u32,
    pub octets: u64,
    pub ucast_pkts: u32,
    pub multicast_pkts: u32,
    pub broadcast_pkts: u32,
    pub discards: u32,
}

impl Record for VlanCounters {
    ghost layout = { λ mode. layout_of mode 3 5 };

    ghost values = { vlan_counters };

    fn zero() -> VlanCounters {
        VlanCounters::default()
    }

    fn read(c: Cursor, s: &[u8], _mode: Mode) -> Read<VlanCounters> {
        let (at, c) = data::read(c, s, 5)?;
        let fields = VlanCounters {
            vlan_id: load::be32(s, at),
            octets: load::be64(s, at + 4),
            ucast_pkts: load::be32(s, at + 12),
            multicast_pkts: load::be32(s, at + 16),
            broadcast_pkts: load::be32(s, at + 20),
            discards: load::be32(s, at + 24),
        };
        Ok((fields, c))
    }
}

// Format 1001: the load of the processor, and its memory.
#[repr(C)]
#[derive(Clone, Copy, Default)]
pub struct ProcessorCounters {
    pub cpu_5s: u32,
    pub cpu_1m: u32,
    pub cpu_5m: u32,
    pub total_memory: u64,
    pub free_memory: u64,
}

impl Record for ProcessorCounters {
    ghost layout = { λ mode. layout_of mode 3 1001 };

    ghost values = { processor_counters };

    fn zero() -> ProcessorCounters {
        ProcessorCounters::default()
    }

    fn read(c: Cursor, s: &[u8], _mode: Mode) -> Read<ProcessorCounters> {
        let (at, c) = data::read(c, s, 1001)?;
        let fields = ProcessorCounters {
            cpu_5s: load::be32(s, at),
            cpu_1m: load::be32(s, at + 4),
            cpu_5m: load::be32(s, at + 8),
            total_memory: load::be64(s, at + 12),
            free_memory: load::be64(s, at + 20),
        };
        Ok((fields, c))
    }
}
