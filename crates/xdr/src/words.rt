// Words: a u32, an i32, a u64, and a run of words whose values are not asked for.
ghost use Rattle.std.specs.Prelude.{◌≡◌, ◌<◌};
ghost use Rattle.reading.specs.Script.{number, integer, word, long, int, nothing};
ghost use Rattle.reading.specs.Cursor.{fixed, read_item, times, follow};
ghost use Rattle.reading.specs.Layout.{any_word};
ghost use Rattle.xdr.specs.Shown.{Inside, place, read_out, passed_out};

use crate::{Cursor, Passed, Read, Reason, Refusal};
use load;

impl Cursor {
    // One item of n bytes, whatever they are.
    #[tactic(auto, unfolding(reading::specs::Cursor::fixed, reading::specs::Cursor::read_item))]
    pub fn skip(self, s: &[u8], n: usize) -> Passed
        requires inside { Inside s.now self }
        requires n_nonzero { 0 < n }
        ensures { passed_out result nothing ≡ fixed n nothing s.now (place self) }
    {
        if s.len() - self.at < n {
            return Err(self.refusal(Reason::Cut));
        }
        Ok(self.past(n))
    }

    #[tactic(auto, unfolding(reading::specs::Cursor::fixed, reading::specs::Cursor::read_item))]
    pub fn read_u32(self, s: &[u8]) -> Read<u32>
        requires { Inside s.now self }
        ensures { read_out number result ≡ read_item word s.now (place self) }
    {
        let d = self.skip(s, 4)?;
        Ok((load::be32(s, self.at), d))
    }

    #[tactic(auto, unfolding(reading::specs::Cursor::fixed, reading::specs::Cursor::read_item))]
    pub fn read_i32(self, s: &[u8]) -> Read<i32>
        requires { Inside s.now self }
        ensures { read_out integer result ≡ read_item int s.now (place self) }
    {
        let (word, d) = self.read_u32(s)?;
        Ok((load::int32(word), d))
    }

    // Two lines like those of `read_u32`: a trait that both widths share would say no less.
    #[tactic(auto, unfolding(reading::specs::Cursor::fixed, reading::specs::Cursor::read_item))]
    pub fn read_u64(self, s: &[u8]) -> Read<u64>
        requires { Inside s.now self }
        ensures { read_out number result ≡ read_item long s.now (place self) }
    {
        let d = self.skip(s, 8)?;
        Ok((load::be64(s, self.at), d))
    }

    // n words in one comparison: past them all, or the refusal of the first that is missing.
    #[tactic(auto, using(crate::proofs::Laws::runs))]
    pub fn read_words(self, s: &[u8], n: u32) -> Passed
        requires { Inside s.now self }
        ensures { passed_out result nothing ≡ times n (follow any_word) s.now (place self) }
    {
        let at = self.at;
        let steps = self.steps;
        let count = n as usize;
        let there = (s.len() - at) / 4;
        if there < count {
            return Err(Refusal {
                reason: Reason::Cut,
                at: at + 4 * there,
                steps: steps + there,
            });
        }
        Ok(Cursor {
            at: at + 4 * count,
            steps: steps + count,
        })
    }
}
