// Opaques and strings: a length word, that many bytes, and a pad to a multiple of four, which may hold anything.
ghost use Rattle.std.specs.Prelude.{◌≡◌};
ghost use Rattle.reading.specs.Script.{opaque, string};
ghost use Rattle.reading.specs.Cursor.{read_item};
ghost use Rattle.xdr.specs.Shown.{Inside, a_part, place, read_out};

use crate::{Cursor, MAX_OPAQUE_SIZE, Read, Reason, Span};
use load;
use strings;

impl Cursor {
    #[tactic(auto, unfolding(reading::specs::Cursor::fixed, reading::specs::Cursor::read_item, reading::specs::Cursor::read_opaque))]
    pub fn read_opaque(self, s: &[u8]) -> Read<Span>
        requires { Inside s.now self }
        ensures { read_out a_part result ≡ read_item opaque s.now (place self) }
    {
        let (length, d) = self.read_u32(s)?;
        if MAX_OPAQUE_SIZE < length {
            return Err(self.refusal(Reason::OpaqueTooLong));
        }
        let start = d.at;
        let count = length as usize;
        let padded = load::padded(count);
        if s.len() - start < padded {
            return Err(self.refusal(Reason::Cut));
        }
        let end = Cursor {
            at: start + padded,
            steps: d.steps,
        };
        Ok((Span { start, count }, end))
    }

    // An opaque that is UTF-8, which is looked at once payload and pad are known to be there. What is not is refused where it goes bad. It is
    // inlined, so that a span that nobody asks for is not handed back.
    #[inline(always)]
    #[tactic(auto, using(crate::proofs::Laws::strings), unfolding(reading::specs::Cursor::read_item, reading::specs::Cursor::read_opaque, reading::specs::Cursor::fixed))]
    pub fn read_string(self, s: &[u8]) -> Read<Span>
        requires { Inside s.now self }
        ensures { read_out a_part result ≡ read_item string s.now (place self) }
    {
        let (text, d) = self.read_opaque(s)?;
        let start = text.start;
        let end = start + text.count;
        let good = strings::well_formed(&s[start..end]);
        if good < text.count {
            return Err(self.ill_formed(start + good));
        }
        Ok((text, d))
    }
}
