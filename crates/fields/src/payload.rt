// Where the payload of a descriptor lies in the input, and all of it with its pad.
ghost use Rattle.std.specs.Prelude.{◌≡◌, get_or};
ghost use Rattle.reading.specs.Answer.{payload_span_of, whole_span_of, payload};
ghost use Rattle.xdr.specs.Shown.{span};

use crate::descriptor::{Words, descriptor};
use load;
use xdr::{MAX_INPUT_SIZE, Span};

// Where a descriptor's payload lies. It is empty where a field reading would refuse the range: C has a start and a count, and no None.
#[tactic(auto, unfolding(reading::specs::Answer::payload_span_of))]
pub fn payload_span(s: &[u8], d: &Words) -> Span
    ensures { span result ≡ payload_span_of s.now (get_or d.now 2 0) (get_or d.now 3 0) }
{
    let x = descriptor(d);
    let start = x.start as usize;
    let count = x.length as usize;
    if MAX_INPUT_SIZE < s.len() || s.len() < start + count {
        return Span::default();
    }
    Span { start, count }
}

// Where all of it lies, from its first byte to the end of its pad: what a relay forwards. It is empty likewise.
#[tactic(auto, unfolding(reading::specs::Answer::whole_span_of))]
pub fn whole_span(s: &[u8], d: &Words) -> Span
    ensures { span result ≡ whole_span_of s.now (get_or d.now 2 0) (get_or d.now 3 0) (get_or d.now 6 0) }
{
    let x = descriptor(d);
    let first = x.first as usize;
    let start = x.start as usize;
    let end = start + load::padded(x.length as usize);
    if MAX_INPUT_SIZE < s.len() || start < first || s.len() < end {
        return Span::default();
    }
    Span {
        start: first,
        count: end - first,
    }
}

// A descriptor's payload, as that part of the caller's buffer.
#[tactic(auto, unfolding(reading::specs::Answer::payload, reading::specs::Answer::payload_span_of))]
pub fn payload<'a>(s: &'a [u8], d: &Words) -> &'a [u8]
    ensures { result.now ≡ payload s.now (get_or d.now 2 0) (get_or d.now 3 0) }
{
    let x = payload_span(s, d);
    &s[x.start..x.start + x.count]
}
