// The header of a datagram.
ghost use Rattle.std.specs.Prelude.{◌≡◌};
ghost use Rattle.reading.specs.Script.{number};
ghost use Rattle.reading.specs.Layout.{header, version};
ghost use Rattle.reading.proofs.Fields.{field_out};
ghost use Rattle.xdr.specs.Shown.{Inside, place, read_out};
ghost use Rattle.datagram.specs.Shown.{header_fields, Heads};

use layout::field;
use layout::field::Mode;
use layout::record::Record;
use xdr::{Address, Cursor, Read, Reason};

// The header's fields.
#[repr(C)]
#[derive(Clone, Copy, Default)]
pub struct Header {
    pub version: u32,
    pub agent_address: Address,
    pub sub_agent_id: u32,
    pub sequence_number: u32,
    pub uptime: u32,
    pub num_samples: u32,
}

// The version, which is 5.
#[tactic(auto, unfolding(reading::specs::Cursor::fixed, reading::specs::Cursor::read_item, reading::proofs::Fields::field_out))]
pub fn version_at(c: Cursor, s: &[u8]) -> Read<u32>
    requires { Inside s.now c }
    ensures { read_out number result ≡ field_out version s.now (place c) }
{
    let (version, d) = c.read_u32(s)?;
    if version != 5 {
        return Err(c.refusal(Reason::Version));
    }
    Ok((version, d))
}

// The header, passed; and where its four words begin.
pub fn row(c: Cursor, s: &[u8]) -> Read<usize>
    requires { Inside s.now c }
    ensures { Heads s.now c result }
{
    let (_, c) = version_at(c, s)?;
    let (_, c) = c.parse_address(s)?;
    let end = c.read_words(s, 4)?;
    Ok((c.at, end))
}

impl Record for Header {
    ghost layout = { λ _. header };

    ghost values = { header_fields };

    fn zero() -> Header {
        Header::default()
    }

    #[inline(always)]
    #[tactic(auto, unfolding(reading::specs::Cursor::fixed, reading::specs::Cursor::read_item, reading::proofs::Fields::field_out, reading::proofs::Fields::fields_out))]
    fn read(c: Cursor, s: &[u8], _mode: Mode) -> Read<Header> {
        let (version, c) = version_at(c, s)?;
        let (agent_address, c) = c.parse_address(s)?;
        let ([sub_agent_id, sequence_number, uptime, num_samples], c) = field::words::<4>(c, s)?;
        let header = Header {
            version,
            agent_address,
            sub_agent_id,
            sequence_number,
            uptime,
            num_samples,
        };
        Ok((header, c))
    }
}
