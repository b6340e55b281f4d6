// A frame: a format word and an opaque, as samples and records have it; and what a pass over frames answers.
ghost use Rattle.std.specs.Prelude.{◌≡◌, ◌+◌, ◌^◌, ◌≤◌, ◌<◌, length};
ghost use Rattle.reading.specs.Sizes.{longest_input};
ghost use Rattle.reading.proofs.Counts.{frame_at};
ghost use Rattle.xdr.specs.Shown.{Inside, place, read_out};
ghost use Rattle.layout.specs.Shown.{a_frame, first_of};

use load;
use xdr::{Cursor, MAX_OPAQUE_SIZE, Read, Reason, Span};

// The format, and where the payload lies.
#[derive(Clone, Copy)]
pub struct Frame {
    pub format: u32,
    pub payload: Span,
}

// All is well up to the cursor, with so many descriptors; or it is not.
pub type Scanned = Read<usize>;

impl Frame {
    // Where the payload ends, and its pad begins.
    pub fn end(self) -> usize
        requires { self.payload.start + self.payload.count < 2 ^ 64 }
        ensures { result ≡ self.payload.start + self.payload.count }
    {
        self.payload.start + self.payload.count
    }

    // The cursor at the payload, with the steps up to behind the frame.
    pub fn first(self, behind: Cursor) -> Cursor
        ensures { result ≡ first_of self behind }
    {
        Cursor {
            at: self.payload.start,
            steps: behind.steps,
        }
    }

    // By one look at its two words and its end: where that is inside, the length is not over the limit, for no input is as long.
    #[tactic(auto, unfolding(reading::specs::Cursor::fixed, reading::specs::Cursor::read_item, reading::specs::Cursor::read_opaque, reading::proofs::Counts::frame_at))]
    pub fn parse(c: Cursor, s: &[u8]) -> Read<Frame>
        requires inside { Inside s.now c }
        requires s_len_bound { length s.now ≤ longest_input }
        ensures { read_out a_frame result ≡ frame_at s.now (place c) }
    {
        let start = c.at + 8;
        if s.len() < start {
            return Frame::by_items(c, s);
        }
        let length = load::be32(s, c.at + 4);
        let count = length as usize;
        let end = start + load::padded(count);
        if s.len() < end {
            if MAX_OPAQUE_SIZE < length {
                return Err(c.past(4).refusal(Reason::OpaqueTooLong));
            }
            return Err(c.past(4).refusal(Reason::Cut));
        }
        let frame = Frame {
            format: load::be32(s, c.at),
            payload: Span { start, count },
        };
        let behind = Cursor {
            at: end,
            steps: c.steps + 2,
        };
        Ok((frame, behind))
    }

    // A frame that is too short for its two words.
    #[tactic(auto, unfolding(reading::specs::Cursor::fixed, reading::specs::Cursor::read_item, reading::specs::Cursor::read_opaque, reading::proofs::Counts::frame_at))]
    fn by_items(c: Cursor, s: &[u8]) -> Read<Frame>
        requires { Inside s.now c }
        ensures { read_out a_frame result ≡ frame_at s.now (place c) }
    {
        let (format, d) = c.read_u32(s)?;
        let (payload, e) = d.read_opaque(s)?;
        Ok((Frame { format, payload }, e))
    }
}
