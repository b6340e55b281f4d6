// Where the payload of a descriptor lies, and all of it, for C.
ghost use Rattle.std.specs.Prelude.{◌≡◌, get_or};
ghost use Rattle.reading.specs.Answer.{payload_span_of, whole_span_of};
ghost use Rattle.xdr.specs.Shown.{span};

use fields::descriptor::Words;
use fields::payload;
use xdr::Span;

pub fn latchplume_payload(s: &[u8], d: &Words) -> Span
    ensures { span result ≡ payload_span_of s.now (get_or d.now 2 0) (get_or d.now 3 0) }
{
    payload::payload_span(s, d)
}

pub fn latchplume_whole(s: &[u8], d: &Words) -> Span
    ensures { span result ≡ whole_span_of s.now (get_or d.now 2 0) (get_or d.now 3 0) (get_or d.now 6 0) }
{
    payload::whole_span(s, d)
}
