// The fields of a layout that are passed with nothing kept of them: what the framing needs of a record.
ghost use Rattle.std.specs.Prelude.{◌≡◌};
ghost use Rattle.reading.specs.Script.{nothing};
ghost use Rattle.reading.proofs.Fields.{fields_out};
ghost use Rattle.xdr.specs.Shown.{Inside, place, passed_out};
ghost use Rattle.layout.specs.Passing.{end_of, fields_of, passing};

use crate::field::protocol;
use crate::lists::{list, segments};
use xdr::{Cursor, Passed, Read};

// The fields that layouts are made of.
#[derive(Clone, Copy)]
pub enum Field {
    Words(u32),
    Long,
    // A MAC address with its pad, and a bare one.
    Mac,
    Six,
    Sixteen,
    Protocol,
    Address,
    Opaque,
    Text,
    List,
    Segments,
}

// The cursor behind what was read.
fn behind<T: Copy>(read: Read<T>) -> Passed
    ensures { result ≡ end_of read }
{
    let (_, end) = read?;
    Ok(end)
}

impl Field {
    // A row names its fields, so that nothing is left to choose where this is inlined.
    #[inline(always)]
    #[tactic(auto, unfolding(reading::specs::Cursor::fixed, reading::specs::Cursor::read_item, reading::proofs::Fields::field_out, reading::proofs::Fields::fields_out))]
    pub fn pass(self, c: Cursor, s: &[u8]) -> Passed
        requires { Inside s.now c }
        ensures { passed_out result nothing ≡ passing (fields_of self) s.now (place c) }
    {
        match self {
            Field::Words(n) => c.read_words(s, n),
            Field::Long => c.skip(s, 8),
            Field::Mac => c.pass_fixed::<8>(s),
            Field::Six => c.pass_fixed::<6>(s),
            Field::Sixteen => c.pass_fixed::<16>(s),
            Field::Protocol => behind(protocol(c, s)),
            Field::Address => behind(c.parse_address(s)),
            Field::Opaque => behind(c.read_opaque(s)),
            Field::Text => behind(c.read_string(s)),
            Field::List => behind(list(c, s)),
            Field::Segments => behind(segments(c, s)),
        }
    }
}
