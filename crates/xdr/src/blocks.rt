// Fixed blocks: passed, and by value.
ghost use Rattle.std.specs.Prelude.{◌≡◌, ◌<◌, take, drop};
ghost use Rattle.reading.specs.Script.{nothing, octets};
ghost use Rattle.reading.specs.Cursor.{fixed};
ghost use Rattle.xdr.specs.Shown.{Inside, passed_out, place, read_out};

use crate::{Cursor, Passed, Read};
use load;

impl Cursor {
    // Past a block of N bytes.
    pub fn pass_fixed<const N: usize>(self, s: &[u8]) -> Passed
        requires inside { Inside s.now self }
        requires some { 0 < N }
        ensures { passed_out result nothing ≡ fixed N nothing s.now (place self) }
    {
        self.skip(s, N)
    }

    // A block of N bytes.
    #[tactic(auto, unfolding(reading::specs::Cursor::fixed, reading::specs::Cursor::read_item))]
    pub fn read_fixed<const N: usize>(self, s: &[u8]) -> Read<[u8; N]>
        requires inside { Inside s.now self }
        requires some { 0 < N }
        ensures { read_out octets result ≡ fixed N (octets (take N (drop self.at s.now))) s.now (place self) }
    {
        let d = self.pass_fixed::<N>(s)?;
        Ok((load::block(s, self.at), d))
    }
}
