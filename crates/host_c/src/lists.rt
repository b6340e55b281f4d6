// Made by tools/exports from crates/host.
// The words of a list and the segments of an AS path, for C.
ghost use Rattle.std.specs.Prelude.{◌≡◌};
ghost use Rattle.reading.specs.Answer.{list_word_of, segment_at};
ghost use Rattle.xdr.specs.Shown.{answer_of};
ghost use Rattle.layout.specs.Shown.{a_segment};
ghost use Rattle.fields.specs.Shown.{listed};

use fields::lists::Listed;
use layout::lists::Segment;
use layout::record::Reading;
use xdr::Outcome;

#[unsafe(no_mangle)]
pub extern "C" fn latchplume_list_word(s: &[u8], start: usize, count: usize, index: usize) -> Listed
    ensures { listed result ≡ list_word_of s.now start count index }
{
    host::lists::latchplume_list_word(s, start, count, index)
}

// What C gets of a reading of Segment, since no generic struct goes to C.
#[repr(C)]
#[derive(Clone, Copy)]
pub struct SegmentReading {
    pub outcome: Outcome,
    pub fields: Segment,
}

#[unsafe(no_mangle)]
pub extern "C" fn latchplume_next_segment(s: &[u8], at: usize) -> SegmentReading
    ensures { answer_of result.outcome (a_segment result.fields) ≡ segment_at s.now at }
{
    let Reading { outcome, fields } = host::lists::latchplume_next_segment(s, at);
    SegmentReading { outcome, fields }
}
