// The words of a list and the segments of an AS path, for C.
ghost use Rattle.std.specs.Prelude.{◌≡◌};
ghost use Rattle.reading.specs.Answer.{list_word_of, segment_at};
ghost use Rattle.xdr.specs.Shown.{answer_of};
ghost use Rattle.layout.specs.Shown.{a_segment};
ghost use Rattle.fields.specs.Shown.{listed};

use fields::lists;
use fields::lists::Listed;
use layout::lists::Segment;
use layout::record::Reading;
use xdr::Span;

pub fn latchplume_list_word(s: &[u8], start: usize, count: usize, index: usize) -> Listed
    ensures { listed result ≡ list_word_of s.now start count index }
{
    lists::word_of(s, Span { start, count }, index)
}

pub fn latchplume_next_segment(s: &[u8], at: usize) -> Reading<Segment>
    ensures { answer_of result.outcome (a_segment result.fields) ≡ segment_at s.now at }
{
    lists::next_segment(s, at)
}
