// What is counted: a list, which is a count word and that many words; and the segments of an AS path.
ghost use Rattle.std.specs.Prelude.{◌≡◌};
ghost use Rattle.reading.specs.Script.{nothing};
ghost use Rattle.reading.specs.Cursor.{follow};
ghost use Rattle.reading.specs.Layout.{list, segments, segment};
ghost use Rattle.reading.specs.Answer.{segment_fields};
ghost use Rattle.reading.proofs.Fields.{field_out};
ghost use Rattle.xdr.specs.Shown.{Inside, a_part, place, passed_out, read_out};
ghost use Rattle.layout.specs.Shown.{a_segment};

use crate::field::Mode;
use crate::record::Record;
use xdr::{Cursor, Passed, Read, Span};

#[tactic(auto, unfolding(reading::specs::Cursor::fixed, reading::specs::Cursor::read_item, reading::proofs::Fields::field_out, reading::proofs::Fields::run_out))]
pub fn list(c: Cursor, s: &[u8]) -> Read<Span>
    requires { Inside s.now c }
    ensures { read_out a_part result ≡ field_out list s.now (place c) }
{
    let (n, first) = c.read_u32(s)?;
    let end = first.read_words(s, n)?;
    let list = Span {
        start: first.at,
        count: n as usize,
    };
    Ok((list, end))
}

// A segment of an AS path: its type, which may be any number, and where its AS numbers lie.
#[repr(C)]
#[derive(Clone, Copy, Default)]
pub struct Segment {
    pub kind: u32,
    pub path: Span,
}

impl Record for Segment {
    ghost layout = { λ _. segment_fields };

    ghost values = { a_segment };

    fn zero() -> Segment {
        Segment::default()
    }

    #[tactic(auto, unfolding(reading::specs::Cursor::fixed, reading::specs::Cursor::read_item, reading::proofs::Fields::field_out, reading::proofs::Fields::fields_out))]
    fn read(c: Cursor, s: &[u8], _mode: Mode) -> Read<Segment> {
        let (kind, c) = c.read_u32(s)?;
        let (path, c) = list(c, s)?;
        Ok((Segment { kind, path }, c))
    }
}

// One segment, passed.
#[tactic(auto, unfolding(reading::specs::Cursor::follow, reading::specs::Layout::fields, reading::specs::Layout::field, reading::specs::Layout::run_of, reading::proofs::Fields::fields_out, reading::proofs::Fields::field_out, reading::proofs::Fields::run_out))]
fn past_segment(c: Cursor, s: &[u8]) -> Passed
    requires { Inside s.now c }
    ensures { passed_out result nothing ≡ follow segment s.now (place c) }
{
    let (_, end) = Segment::read(c, s, Mode::Memo)?;
    Ok(end)
}

pub fn segments(c: Cursor, s: &[u8]) -> Read<Span>
    requires { Inside s.now c }
    ensures { read_out a_part result ≡ field_out segments s.now (place c) }
{
    let (n, first) = c.read_u32(s)?;
    let mut end = first;
    for i in 0..n {
        end = past_segment(end, s)?;
    }
    let path = Span {
        start: first.at,
        count: n as usize,
    };
    Ok((path, end))
}
