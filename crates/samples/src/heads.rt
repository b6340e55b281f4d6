// Made by layouts/make from layouts/table.
// Heads: the fields of a datagram or of a sample, before what it holds.
#![tactic(auto, unfolding(reading::specs::Answer::layout_of, reading::specs::Layout::samples, reading::specs::Cursor::fixed, reading::specs::Cursor::read_item, reading::proofs::Fields::field_out, reading::proofs::Fields::fields_out))]

ghost use Rattle.reading.specs.Answer.{layout_of};
ghost use Rattle.samples.specs.Shown.{flow_sample, counters_sample, flow_sample_expanded, counters_sample_expanded, discarded_packet};

use crate::kinds::{DataSourceExpanded, InterfaceExpanded};
use layout::field;
use layout::field::Mode;
use layout::record::Record;
use numbers::{DataSource, Interface};
use xdr::{Cursor, Read};

// Format 1: a packet sampled from a source.
#[repr(C)]
#[derive(Clone, Copy, Default)]
pub struct FlowSample {
    pub sequence_number: u32,
    pub source_id: DataSource,
    pub sampling_rate: u32,
    pub sample_pool: u32,
    pub drops: u32,
    pub input: Interface,
    pub output: Interface,
    pub num_records: u32,
}

impl Record for FlowSample {
    ghost layout = { λ mode. layout_of mode 1 1 };

    ghost values = { flow_sample };

    fn zero() -> FlowSample {
        FlowSample::default()
    }

    fn read(c: Cursor, s: &[u8], _mode: Mode) -> Read<FlowSample> {
        let (row, c) = field::words::<8>(c, s)?;
        let fields = FlowSample {
            sequence_number: row[0],
            source_id: DataSource(row[1]),
            sampling_rate: row[2],
            sample_pool: row[3],
            drops: row[4],
            input: Interface(row[5]),
            output: Interface(row[6]),
            num_records: row[7],
        };
        Ok((fields, c))
    }
}

// Format 2: counters of a source.
#[repr(C)]
#[derive(Clone, Copy, Default)]
pub struct CountersSample {
    pub sequence_number: u32,
    pub source_id: DataSource,
    pub num_records: u32,
}

impl Record for CountersSample {
    ghost layout = { λ mode. layout_of mode 1 2 };

    ghost values = { counters_sample };

    fn zero() -> CountersSample {
        CountersSample::default()
    }

    fn read(c: Cursor, s: &[u8], _mode: Mode) -> Read<CountersSample> {
        let ([sequence_number, source_id, num_records], c) = field::words::<3>(c, s)?;
        let fields = CountersSample {
            sequence_number,
            source_id: DataSource(source_id),
            num_records,
        };
        Ok((fields, c))
    }
}

// Format 3: as 1, with two words each for the source and the interfaces.
#[repr(C)]
#[derive(Clone, Copy, Default)]
pub struct FlowSampleExpanded {
    pub sequence_number: u32,
    pub source_id: DataSourceExpanded,
    pub sampling_rate: u32,
    pub sample_pool: u32,
    pub drops: u32,
    pub input: InterfaceExpanded,
    pub output: InterfaceExpanded,
    pub num_records: u32,
}

impl Record for FlowSampleExpanded {
    ghost layout = { λ mode. layout_of mode 1 3 };

    ghost values = { flow_sample_expanded };

    fn zero() -> FlowSampleExpanded {
        FlowSampleExpanded::default()
    }

    fn read(c: Cursor, s: &[u8], _mode: Mode) -> Read<FlowSampleExpanded> {
        let (row, c) = field::words::<11>(c, s)?;
        let fields = FlowSampleExpanded {
            sequence_number: row[0],
            source_id: DataSourceExpanded {
                source_id_type: row[1],
                source_id_index: row[2],
            },
            sampling_rate: row[3],
            sample_pool: row[4],
            drops: row[5],
            input: InterfaceExpanded {
                format: row[6],
                value: row[7],
            },
            output: InterfaceExpanded {
                format: row[8],
                value: row[9],
            },
            num_records: row[10],
        };
        Ok((fields, c))
    }
}

// Format 4: as 2, with two words for the source.
#[repr(C)]
#[derive(Clone, Copy, Default)]
pub struct CountersSampleExpanded {
    pub sequence_number: u32,
    pub source_id: DataSourceExpanded,
    pub num_records: u32,
}

impl Record for CountersSampleExpanded {
    ghost layout = { λ mode. layout_of mode 1 4 };

    ghost values = { counters_sample_expanded };

    fn zero() -> CountersSampleExpanded {
        CountersSampleExpanded::default()
    }

    fn read(c: Cursor, s: &[u8], _mode: Mode) -> Read<CountersSampleExpanded> {
        let (row, c) = field::words::<4>(c, s)?;
        let fields = CountersSampleExpanded {
            sequence_number: row[0],
            source_id: DataSourceExpanded {
                source_id_type: row[1],
                source_id_index: row[2],
            },
            num_records: row[3],
        };
        Ok((fields, c))
    }
}

// Format 5: a packet that was discarded, and why.
#[repr(C)]
#[derive(Clone, Copy, Default)]
pub struct DiscardedPacket {
    pub sequence_number: u32,
    pub source_id: DataSourceExpanded,
    pub drops: u32,
    pub input_ifindex: u32,
    pub output_ifindex: u32,
    pub reason: u32,
    pub num_records: u32,
}

impl Record for DiscardedPacket {
    ghost layout = { λ mode. layout_of mode 1 5 };

    ghost values = { discarded_packet };

    fn zero() -> DiscardedPacket {
        DiscardedPacket::default()
    }

    fn read(c: Cursor, s: &[u8], _mode: Mode) -> Read<DiscardedPacket> {
        let (row, c) = field::words::<8>(c, s)?;
        let fields = DiscardedPacket {
            sequence_number: row[0],
            source_id: DataSourceExpanded {
                source_id_type: row[1],
                source_id_index: row[2],
            },
            drops: row[3],
            input_ifindex: row[4],
            output_ifindex: row[5],
            reason: row[6],
            num_records: row[7],
        };
        Ok((fields, c))
    }
}
