// What a flow record's payload holds: the table of docs/RULES.md, R3.8, row by row. An aggregation is not read here, since it holds records again.
ghost use Rattle.std.specs.Prelude.{◌≡◌};
ghost use Rattle.reading.specs.Script.{give, nothing};
ghost use Rattle.reading.specs.Cursor.{follow};
ghost use Rattle.reading.specs.Layout.{opened, flows};
ghost use Rattle.reading.specs.Answer.{layout_of};
ghost use Rattle.xdr.specs.Shown.{Inside, place, passed_out};
ghost use Rattle.layout.specs.Passing.{passing};
ghost use Rattle.layout.specs.Shown.{mode_of};

use layout::field::Mode;
use layout::pass::Field::{
    Address, List, Long, Mac, Opaque, Protocol, Segments, Six, Sixteen, Text, Words,
};
use xdr::{Cursor, Passed};

// Past the fields of a row, one behind another.
macro_rules! row {
    ($c:ident, $s:ident, $($field:expr),+) => {{
        $(let $c = $field.pass($c, $s)?;)+
        Ok($c)
    }};
}

// Past the fields of a format; none where it stays raw.
#[tactic(auto, unfolding(reading::specs::Answer::layout_of, reading::specs::Layout::flows, reading::specs::Cursor::fixed, reading::specs::Cursor::read_item, reading::proofs::Fields::field_out, reading::proofs::Fields::fields_out))]
fn fields(c: Cursor, s: &[u8], format: u32, mode: Mode) -> Passed
    requires inside { Inside s.now c }
    requires no_aggregation { format ≡ 1016 → ⊥ }
    ensures { passed_out result nothing ≡ passing (layout_of (mode_of mode) 2 format) s.now (place c) }
{
    match format {
        // made by layouts/make from layouts/table: from here
        1 => row!(c, s, Protocol, Words(2), Opaque),
        2 => match mode {
            Mode::Memo => row!(c, s, Words(1), Mac, Mac, Words(1)),
            Mode::Base => row!(c, s, Words(1), Six, Six, Words(1)),
        },
        3 => row!(c, s, Words(8)),
        4 => row!(c, s, Words(2), Sixteen, Sixteen, Words(4)),
        1001 => row!(c, s, Words(4)),
        1002 => row!(c, s, Address, Words(2)),
        1003 => row!(c, s, Address, Words(3), Segments, List, Words(1)),
        1004 => row!(c, s, Words(1), Text, Words(1), Text),
        1005 => row!(c, s, Words(1), Text, Text),
        1006 => row!(c, s, Address, List, List),
        1007 => row!(c, s, Address, Address),
        1008 => row!(c, s, Text, Words(2)),
        1009 => row!(c, s, Text, Words(3)),
        1010 => row!(c, s, Address, Words(1)),
        1011 => row!(c, s, Words(1)),
        1012 => row!(c, s, List),
        1013 => row!(c, s, Words(1), Opaque),
        1014 => row!(c, s, Text, Mac, Words(2), Long, Words(3)),
        1015 => row!(c, s, Text, Mac, Words(5), Long, Words(1)),
        // made by layouts/make: to here
        _ => Ok(c),
    }
}

pub fn pass(c: Cursor, s: &[u8], format: u32, mode: Mode) -> Passed
    requires inside { Inside s.now c }
    requires no_aggregation { format ≡ 1016 → ⊥ }
    ensures { passed_out result nothing ≡ follow (opened (flows (mode_of mode) (give nothing)) format) s.now (place c) }
{
    fields(c, s, format, mode)
}
