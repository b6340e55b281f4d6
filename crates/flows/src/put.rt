// Flow records as descriptors: a second pass over what the first has accepted, which goes by frames alone.
// An aggregation is known by its format, 1016, as docs/RULES.md names it: an enum would have that case and, for all other numbers, one more.
ghost use Rattle.std.specs.Prelude.{◌≡◌, ◌-◌, ◌≤◌, length};
ghost use Rattle.reading.specs.Sizes.{depth_limit};
ghost use Rattle.reading.specs.Bytes.{be4};
ghost use Rattle.reading.specs.Cursor.{times, follow};
ghost use Rattle.reading.specs.Layout.{base as base_mode, opened, flows, flow, pdu};
ghost use Rattle.reading.specs.Answer.{from};
ghost use Rattle.store.specs.Written.{Ready, held_by, written, placed, filled, fills};
ghost use Rattle.flows.specs.Passing.{FlatOf};

use crate::{MAX_DEPTH, TOO_DEEP};
use load;
use numbers::DataFormat;
use store::{DESCRIPTOR_WORDS, Descriptor, Kind, Pen, Written, index_at, put, put_frame};

// Where flat records end: the next byte, the word where the next descriptor begins, and the records that are left.
#[derive(Clone, Copy)]
pub struct Flat {
    pub at: usize,
    pub word: usize,
    pub rest: u32,
}

// Of n flow records in a row, those up to the first aggregation: most samples hold none, and this is one loop.
pub fn put_flat_records(
    s: &[u8],
    at: usize,
    n: u32,
    left: usize,
    store: &mut [u32],
    pen: Pen,
) -> Flat
    requires left_le_depth_limit { left ≤ depth_limit }
    requires ready { Ready s.now store.old pen (times n (follow (flow base_mode depth_limit left)) s.now (from at)) }
    ensures flat_of { FlatOf left s.now store.old at n pen result store.new }
    ensures at_value { (result.rest ≡ 0 → ⊥) → be4 s.now result.at ≡ 1016 }
{
    let depth = (TOO_DEEP - left) as u32;
    let mut cur = at;
    let mut word = pen.word;
    for i in 0..n {
        if load::be32(s, cur) == 1016 {
            return Flat {
                at: cur,
                word,
                rest: n - i,
            };
        }
        let pen = Pen { word, ..pen };
        let w = put_frame(s, cur, Kind::FlowRecord as u32, depth, &mut *store, pen);
        cur = w.at;
        word = w.word;
    }
    Flat {
        at: cur,
        word,
        rest: 0,
    }
}

// n flow records in a row.
#[cycle(put)]
fn put_flow_records(
    s: &[u8],
    at: usize,
    n: u32,
    left: usize,
    store: &mut [u32],
    pen: Pen,
) -> Written
    requires left_le_depth_limit { left ≤ depth_limit }
    requires ready { Ready s.now store.old pen (times n (follow (flow base_mode depth_limit left)) s.now (from at)) }
    ensures { written result store.new ≡ placed pen (times n (follow (flow base_mode depth_limit left)) s.now (from at)) store.old }
{
    let mut cur = at;
    let mut word = pen.word;
    for i in 0..n {
        let w = put_flow_record(s, cur, left, &mut *store, Pen { word, ..pen });
        cur = w.at;
        word = w.word;
    }
    Written { at: cur, word }
}

// One flow record: its own descriptor, and, where it is an aggregation, its PDUs behind that.
#[cycle(put)]
fn put_flow_record(s: &[u8], at: usize, left: usize, store: &mut [u32], pen: Pen) -> Written
    requires left_le_depth_limit { left ≤ depth_limit }
    requires ready { Ready s.now store.old pen (follow (flow base_mode depth_limit left) s.now (from at)) }
    ensures { written result store.new ≡ placed pen (follow (flow base_mode depth_limit left) s.now (from at)) store.old }
{
    let depth = (TOO_DEEP - left) as u32;
    let format = load::be32(s, at);
    let base = pen.base;
    let word = pen.word;
    let own = put_frame(s, at, Kind::FlowRecord as u32, depth, &mut *store, pen);
    if format != 1016 {
        return own;
    }
    Written {
        at: own.at,
        word: put_pdus(s, at + 8, left - 1, store, base, word),
    }
}

// What the aggregation holds whose own descriptor is at a word, a PDU count and its PDUs; the word where the next descriptor begins. The records
// of a PDU come first, then its own descriptor before them, whose length they give. Only this calls deeper, and all that it is handed and hands
// back are numbers: those go by registers.
#[cycle(put)]
pub fn put_pdus(
    s: &[u8],
    at: usize,
    left: usize,
    store: &mut [u32],
    base: u32,
    word: usize,
) -> usize
    requires left_le_depth_limit { left ≤ depth_limit }
    requires at_in_bounds { at ≤ length s.now }
    requires ready { Ready s.now store.old (held_by base word) (follow (opened (flows base_mode (pdu (depth_limit - left) (flow base_mode depth_limit left))) 1016) s.now (from at)) }
    ensures { filled result store.new ≡ fills (held_by base word) (follow (opened (flows base_mode (pdu (depth_limit - left) (flow base_mode depth_limit left))) 1016) s.now (from at)) store.old }
{
    let parent = index_at(base, word);
    let n = load::be32(s, at);
    let mut cur = at + 4;
    let mut to = word + DESCRIPTOR_WORDS;
    for i in 0..n {
        let records = load::be32(s, cur);
        let start = cur + 4;
        let pen = Pen {
            base,
            parent: index_at(base, to),
            word: to + DESCRIPTOR_WORDS,
        };
        let w = put_flow_records(s, start, records, left, &mut *store, pen);
        put(
            &mut *store,
            to,
            Descriptor {
                kind: Kind::Pdu as u32,
                format: DataFormat(0),
                start: start as u32,
                length: (w.at - start) as u32,
                parent,
                depth: (MAX_DEPTH - left) as u32,
                first: cur as u32,
            },
        );
        cur = w.at;
        to = w.word;
    }
    to
}
