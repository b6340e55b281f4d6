// Addresses: a type word, and as many bytes as the type has.
ghost use Rattle.std.specs.Prelude.{◌≡◌, ◌++◌, ◌-◌, ◌<◌, ◌≤◌, take, drop, replicate};
ghost use Rattle.reading.specs.Script.{address};
ghost use Rattle.reading.specs.Cursor.{fixed};
ghost use Rattle.reading.specs.Layout.{addr};
ghost use Rattle.reading.proofs.Fields.{field_out};
ghost use Rattle.xdr.specs.Shown.{Inside, place, an_address, read_out};

use crate::{Address, Cursor, Read, Reason};

impl Cursor {
    // What follows the type word of an address of N bytes, and zero behind them.
    #[tactic(auto, unfolding(reading::specs::Cursor::fixed, reading::specs::Cursor::read_item))]
    fn address_of<const N: usize>(self, s: &[u8], kind: u32) -> Read<Address>
        requires inside { Inside s.now self }
        requires some { (0 < N) × (N ≤ 16) }
        ensures { read_out an_address result ≡ fixed N (address kind (take N (drop self.at s.now) ++ replicate (16 - N) 0)) s.now (place self) }
    {
        let (block, d) = self.read_fixed::<N>(s)?;
        let mut bytes = [0; 16];
        bytes[..N].copy_from_slice(&block);
        Ok((Address { kind, bytes }, d))
    }

    #[tactic(auto, unfolding(reading::specs::Cursor::fixed, reading::specs::Cursor::read_item, reading::proofs::Fields::field_out, reading::proofs::Fields::address_out))]
    pub fn parse_address(self, s: &[u8]) -> Read<Address>
        requires { Inside s.now self }
        ensures { read_out an_address result ≡ field_out addr s.now (place self) }
    {
        let (kind, d) = self.read_u32(s)?;
        match kind {
            0 => Ok((Address::default(), d)),
            1 => d.address_of::<4>(s, kind),
            2 => d.address_of::<16>(s, kind),
            _ => Err(self.refusal(Reason::AddressType)),
        }
    }
}
