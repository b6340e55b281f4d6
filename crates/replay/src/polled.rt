// The fields of each counter record: in the order of the memo, by their names.
use crate::values::{Shown, show_each};
use counters::polled::{
    EthernetInterfaceCounters, GenericInterfaceCounters, ProcessorCounters, TokenRingCounters,
    Vg100InterfaceCounters, VlanCounters,
};
use std::io;

impl Shown for GenericInterfaceCounters {
    fn show(self, rt: &impl Print) -> io::Result<()> {
        show_each!(
            rt, self;
            if_index, if_type, if_speed, if_direction, if_status, if_in_octets, if_in_ucast_pkts,
            if_in_multicast_pkts, if_in_broadcast_pkts, if_in_discards, if_in_errors,
            if_in_unknown_protos, if_out_octets, if_out_ucast_pkts, if_out_multicast_pkts,
            if_out_broadcast_pkts, if_out_discards, if_out_errors, if_promiscuous_mode
        )
    }
}

impl Shown for EthernetInterfaceCounters {
    fn show(self, rt: &impl Print) -> io::Result<()> {
        show_each!(
            rt, self;
            dot3_stats_alignment_errors, dot3_stats_fcs_errors, dot3_stats_single_collision_frames,
            dot3_stats_multiple_collision_frames, dot3_stats_sqe_test_errors,
            dot3_stats_deferred_transmissions, dot3_stats_late_collisions,
            dot3_stats_excessive_collisions, dot3_stats_internal_mac_transmit_errors,
            dot3_stats_carrier_sense_errors, dot3_stats_frame_too_longs,
            dot3_stats_internal_mac_receive_errors, dot3_stats_symbol_errors
        )
    }
}

impl Shown for TokenRingCounters {
    fn show(self, rt: &impl Print) -> io::Result<()> {
        show_each!(
            rt, self;
            dot5_stats_line_errors, dot5_stats_burst_errors, dot5_stats_ac_errors,
            dot5_stats_abort_trans_errors, dot5_stats_internal_errors, dot5_stats_lost_frame_errors,
            dot5_stats_receive_congestions, dot5_stats_frame_copied_errors, dot5_stats_token_errors,
            dot5_stats_soft_errors, dot5_stats_hard_errors, dot5_stats_signal_loss,
            dot5_stats_transmit_beacons, dot5_stats_recoverys, dot5_stats_lobe_wires,
            dot5_stats_removes, dot5_stats_singles, dot5_stats_freq_errors
        )
    }
}

impl Shown for Vg100InterfaceCounters {
    fn show(self, rt: &impl Print) -> io::Result<()> {
        show_each!(
            rt, self;
            dot12_in_high_priority_frames, dot12_in_high_priority_octets,
            dot12_in_norm_priority_frames, dot12_in_norm_priority_octets, dot12_in_ipm_errors,
            dot12_in_oversize_frame_errors, dot12_in_data_errors, dot12_in_null_addressed_frames,
            dot12_out_high_priority_frames, dot12_out_high_priority_octets,
            dot12_transition_into_trainings, dot12_hc_in_high_priority_octets,
            dot12_hc_in_norm_priority_octets, dot12_hc_out_high_priority_octets
        )
    }
}

impl Shown for VlanCounters {
    fn show(self, rt: &impl Print) -> io::Result<()> {
        show_each!(rt, self; vlan_id, octets, ucast_pkts, multicast_pkts, broadcast_pkts, discards)
    }
}

impl Shown for ProcessorCounters {
    fn show(self, rt: &impl Print) -> io::Result<()> {
        show_each!(rt, self; cpu_5s, cpu_1m, cpu_5m, total_memory, free_memory)
    }
}
