// What a counter record's payload holds: the table of docs/RULES.md, R3.7, row by row.
ghost use Rattle.std.specs.Prelude.{◌≡◌, ◌+◌, ◌≤◌, length, IfOk};
ghost use Rattle.reading.specs.Script.{nothing};
ghost use Rattle.reading.specs.Layout.{size_of, total, widths};
ghost use Rattle.reading.proofs.Fields.{fields_out};
ghost use Rattle.reading.proofs.Widths.{numbers};
ghost use Rattle.xdr.specs.Shown.{Inside, after_on, after_out, passed_out, place, read_out};
ghost use Rattle.layout.specs.Passing.{passing};
ghost use Rattle.counters.specs.Sizes.{size, sizes, sizes_of};

use layout::after::ReadAfter;
use xdr::{Cursor, Outcome, Passed, Read};

// The width of a field: a word's, or a u64's.
#[derive(Clone, Copy)]
pub enum Width {
    U32,
    U64,
}

use Width::{U32, U64};

// A layout: all its bytes, and the widths of its fields.
#[derive(Clone, Copy)]
pub struct Extent {
    pub bytes: usize,
    pub widths: &'static [Width],
}

impl Width {
    fn octets(self) -> usize
        ensures { result ≡ size_of (size self) }
    {
        match self {
            U32 => 4,
            U64 => 8,
        }
    }
}

// That of a format, and an empty one where it stays raw.
#[tactic(auto, unfolding(crate::specs::Sizes::sizes_of, reading::specs::Layout::counters))]
pub fn fixed(format: u32) -> Extent
    ensures bytes { result.bytes ≡ total (sizes_of format) }
    ensures fields { sizes result.widths.now ≡ sizes_of format }
{
    let (bytes, widths) = match format {
        // made by layouts/make from layouts/table: from here
        1 => (
            88,
            &[
                U32, U32, U64, U32, U32, U64, U32, U32, U32, U32, U32, U32, U64, U32, U32, U32,
                U32, U32, U32,
            ][..],
        ),
        2 => (
            52,
            &[
                U32, U32, U32, U32, U32, U32, U32, U32, U32, U32, U32, U32, U32,
            ][..],
        ),
        3 => (
            72,
            &[
                U32, U32, U32, U32, U32, U32, U32, U32, U32, U32, U32, U32, U32, U32, U32, U32,
                U32, U32,
            ][..],
        ),
        4 => (
            80,
            &[
                U32, U64, U32, U64, U32, U32, U32, U32, U32, U64, U32, U64, U64, U64,
            ][..],
        ),
        5 => (28, &[U32, U64, U32, U32, U32, U32][..]),
        1001 => (28, &[U32, U32, U32, U64, U64][..]),
        // made by layouts/make: to here
        _ => (0, &[][..]),
    };
    Extent { bytes, widths }
}

// Item by item, up to the first that is not there.
fn by_items(c: Cursor, s: &[u8], row: &[Width]) -> Passed
    requires { Inside s.now c }
    ensures { passed_out result nothing ≡ passing (widths (sizes row.now)) s.now (place c) }
{
    let mut end = c;
    for width in row {
        end = end.skip(s, width.octets())?;
    }
    Ok(end)
}

// The fields of a format, by one comparison where they are all there.
pub fn pass(c: Cursor, s: &[u8], format: u32) -> Passed
    requires { Inside s.now c }
    ensures { passed_out result nothing ≡ passing (widths (sizes_of format)) s.now (place c) }
{
    let row = fixed(format);
    if s.len() - c.at < row.bytes {
        // Asked for anew, so that where all is there the widths themselves are not kept.
        return by_items(c, s, fixed(format).widths);
    }
    Ok(Cursor {
        at: c.at + row.bytes,
        steps: c.steps + row.widths.len(),
    })
}

// Where a record begins that is all there.
pub fn read(c: Cursor, s: &[u8], format: u32) -> Read<usize>
    requires { Inside s.now c }
    ensures numbers { read_out (numbers (sizes_of format) s.now) result ≡ fields_out (widths (sizes_of format)) s.now (place c) }
    ensures has_bytes { IfOk result (λ r. r.0 + total (sizes_of format) ≤ length s.now) }
{
    let end = pass(c, s, format)?;
    Ok((c.at, end))
}

// The same behind a reading that ended in plain numbers, as C has them: its outcome, of any code, is handed on as it is.
pub fn read_after(p: Result<Cursor, Outcome>, s: &[u8], format: u32) -> ReadAfter<usize>
    requires { IfOk p (λ c. Inside s.now c) }
    ensures numbers { after_out (numbers (sizes_of format) s.now) result ≡ after_on (fields_out (widths (sizes_of format)) s.now) p }
    ensures has_bytes { IfOk result (λ r. r.0 + total (sizes_of format) ≤ length s.now) }
{
    let c = p?;
    Ok(read(c, s, format)?)
}
