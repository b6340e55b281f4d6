// One datagram: scanned in a first pass, put into the store in a second.
ghost use Rattle.std.specs.Prelude.{◌≡◌, ◌≤◌, length};
ghost use Rattle.reading.specs.Cursor.{follow};
ghost use Rattle.reading.specs.Layout.{base as base_mode, datagram};
ghost use Rattle.reading.specs.Answer.{from};
ghost use Rattle.reading.proofs.Counts.{counted};
ghost use Rattle.xdr.specs.Shown.{place};
ghost use Rattle.layout.specs.Scanned.{Scan};
ghost use Rattle.layout.specs.Shown.{mode_of, scanned_out};
ghost use Rattle.store.specs.Written.{Ready, written, placed};
ghost use Rattle.datagram.specs.Shown.{root};

use crate::header::Header;
use layout::field::Mode;
use layout::frames::Scanned;
use layout::record::Record;
use numbers::DataFormat;
use samples::put::put_samples;
use samples::scan;
use store::{DESCRIPTOR_WORDS, Descriptor, Kind, Pen, Written, put};
use xdr::Cursor;

// The first pass, on top of `count` descriptors.
pub fn scan_datagram(s: &[u8], c: Cursor, mode: Mode, count: usize) -> Scanned
    requires { Scan s.now c count }
    ensures { scanned_out result ≡ counted count (follow (datagram (mode_of mode)) s.now (place c)) }
{
    let (header, first) = Header::read(c, s, mode)?;
    scan::samples(s, first, header.num_samples, mode, count + 1)
}

// The second pass, which is the same in each mode: the datagram at `at`, whose descriptors have the indices from `base` on, written from the store's first word on.
pub fn put_datagram(s: &[u8], at: usize, store: &mut [u32], base: u32) -> Written
    requires at_in_bounds { at ≤ length s.now }
    requires ready { Ready s.now store.old (root base) (follow (datagram base_mode) s.now (from at)) }
    ensures { written result store.new ≡ placed (root base) (follow (datagram base_mode) s.now (from at)) store.old }
{
    let Ok((header, first)) = Header::read(Cursor { at: at, steps: 0 }, s, Mode::Base) else {
        return Written { at: 0, word: 0 };
    };
    let w = put_samples(
        s,
        first.at,
        header.num_samples,
        &mut *store,
        Pen {
            base: base,
            parent: base,
            word: DESCRIPTOR_WORDS,
        },
    );
    let start = at as u32;
    let end = w.at;
    put(
        store,
        0,
        Descriptor {
            kind: Kind::Datagram as u32,
            format: DataFormat(0),
            start: start,
            length: (end - at) as u32,
            // No parent, as C has it (docs/RULES.md, R7.2).
            parent: 4294967295,
            depth: 0,
            first: start,
        },
    );
    w
}
