// The fields of a datagram's header and of each sample: in the order of the memo, by their names.
use crate::values::{Shown, show_each};
use datagram::header::Header;
use samples::heads::{
    CountersSample, CountersSampleExpanded, DiscardedPacket, FlowSample, FlowSampleExpanded,
};
use std::io;

impl Shown for Header {
    fn show(self, rt: &impl Print) -> io::Result<()> {
        show_each!(
            rt, self;
            version, agent_address, sub_agent_id, sequence_number, uptime, num_samples
        )
    }
}

impl Shown for FlowSample {
    fn show(self, rt: &impl Print) -> io::Result<()> {
        show_each!(
            rt, self;
            sequence_number, source_id, sampling_rate, sample_pool, drops, input, output,
            num_records
        )
    }
}

impl Shown for CountersSample {
    fn show(self, rt: &impl Print) -> io::Result<()> {
        show_each!(rt, self; sequence_number, source_id, num_records)
    }
}

impl Shown for FlowSampleExpanded {
    fn show(self, rt: &impl Print) -> io::Result<()> {
        show_each!(
            rt, self;
            sequence_number, source_id, sampling_rate, sample_pool, drops, input, output,
            num_records
        )
    }
}

impl Shown for CountersSampleExpanded {
    fn show(self, rt: &impl Print) -> io::Result<()> {
        show_each!(rt, self; sequence_number, source_id, num_records)
    }
}

impl Shown for DiscardedPacket {
    fn show(self, rt: &impl Print) -> io::Result<()> {
        show_each!(
            rt, self;
            sequence_number, source_id, drops, input_ifindex, output_ifindex, reason, num_records
        )
    }
}
