// What a sample holds, by its format: how many words stand before its records, which is all that the framing needs of them. And the numbers of two
// words that some of its fields are.
ghost use Rattle.samples.specs.Held.{IsKind};

// What a sample holds: so many words, of which the last counts the records behind them; or it stays raw.
#[derive(Clone, Copy)]
pub enum SampleKind {
    Flows(u32),
    Counters(u32),
    Raw,
}

// Format 1 is asked for first, since most samples are of it; and by comparisons, so that the compiler makes no table of jumps.
#[tactic(auto, unfolding(reading::specs::Layout::opened, reading::specs::Layout::samples))]
pub fn kind_of(format: u32) -> SampleKind
    ensures { IsKind result format }
{
    if format == 1 {
        return SampleKind::Flows(8);
    }
    if format < 3 {
        if format == 2 {
            return SampleKind::Counters(3);
        }
        return SampleKind::Raw;
    }
    match format {
        3 => SampleKind::Flows(11),
        4 => SampleKind::Counters(4),
        5 => SampleKind::Flows(8),
        _ => SampleKind::Raw,
    }
}

// A source whose type and index have a word each.
#[repr(C)]
#[derive(Clone, Copy, Default)]
pub struct DataSourceExpanded {
    pub source_id_type: u32,
    pub source_id_index: u32,
}

// An interface whose format and value have a word each.
#[repr(C)]
#[derive(Clone, Copy, Default)]
pub struct InterfaceExpanded {
    pub format: u32,
    pub value: u32,
}
