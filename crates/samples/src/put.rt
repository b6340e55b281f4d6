// The second pass over samples: descriptors, written by frames alone. Its loops stay apart, a few lines each (docs/DECISIONS.md, 17).
ghost use Rattle.std.specs.Prelude.{◌≡◌, ◌≤◌, length};
ghost use Rattle.reading.specs.Sizes.{depth_limit};
ghost use Rattle.reading.specs.Bytes.{be4};
ghost use Rattle.reading.specs.Cursor.{times, follow};
ghost use Rattle.reading.specs.Layout.{base as base_mode, opened, flow, counter, samples, sample};
ghost use Rattle.reading.specs.Answer.{from};
ghost use Rattle.store.specs.Written.{Ready, written, placed, filled, fills};

use crate::kinds::{SampleKind, kind_of};
use flows::MAX_DEPTH;
use flows::put::{put_flat_records, put_pdus};
use load;
use store::{Kind, Pen, Written, index_at, put_frame};

// The levels that are left below a sample's own records.
const LEVELS_BELOW: usize = MAX_DEPTH - 1;

// n counter records in a row. Here and in `put_samples` the counter goes down, since one number is then kept beside the frame, and not two, of which
// one had what the next frame begins by go through memory.
fn put_counter_records(s: &[u8], at: usize, n: u32, store: &mut [u32], pen: Pen) -> Written
    requires { Ready s.now store.old pen (times n (follow counter) s.now (from at)) }
    ensures { written result store.new ≡ placed pen (times n (follow counter) s.now (from at)) store.old }
{
    let mut cur = at;
    let mut word = pen.word;
    for _ in (0..n).rev() {
        let pen = Pen { word, ..pen };
        let w = put_frame(s, cur, Kind::CounterRecord as u32, 1, &mut *store, pen);
        cur = w.at;
        word = w.word;
    }
    Written { at: cur, word }
}

// An aggregation among the flow records of a sample: its own descriptor, and its PDUs behind that.
fn put_aggregation(s: &[u8], at: usize, store: &mut [u32], pen: Pen) -> Written
    requires at_value { be4 s.now at ≡ 1016 }
    requires ready { Ready s.now store.old pen (follow (flow base_mode depth_limit depth_limit) s.now (from at)) }
    ensures { written result store.new ≡ placed pen (follow (flow base_mode depth_limit depth_limit) s.now (from at)) store.old }
{
    let base = pen.base;
    let word = pen.word;
    let own = put_frame(s, at, Kind::FlowRecord as u32, 1, &mut *store, pen);
    Written {
        at: own.at,
        // Lent anew, so that its two words go to the stack only where there is a call.
        word: put_pdus(&*s, at + 8, LEVELS_BELOW, store, base, word),
    }
}

// n flow records of a sample: flat ones in one loop, then an aggregation, where there is one, and so on.
fn put_sample_flows(s: &[u8], at: usize, n: u32, store: &mut [u32], pen: Pen) -> usize
    requires { Ready s.now store.old pen (times n (follow (flow base_mode depth_limit depth_limit)) s.now (from at)) }
    ensures { filled result store.new ≡ fills pen (times n (follow (flow base_mode depth_limit depth_limit)) s.now (from at)) store.old }
{
    let mut cur = at;
    let mut word = pen.word;
    let mut rest = n;
    // A turn takes as many records as were flat, so no range counts them.
    while 0 < rest {
        let flat = put_flat_records(s, cur, rest, MAX_DEPTH, &mut *store, Pen { word, ..pen });
        word = flat.word;
        if flat.rest == 0 {
            return word;
        }
        let w = put_aggregation(s, flat.at, &mut *store, Pen { word, ..pen });
        cur = w.at;
        word = w.word;
        rest = flat.rest - 1;
    }
    word
}

// What a sample of this format holds.
fn put_sample_data(s: &[u8], at: usize, format: u32, store: &mut [u32], pen: Pen) -> usize
    requires at_in_bounds { at ≤ length s.now }
    requires ready { Ready s.now store.old pen (follow (opened (samples base_mode depth_limit) format) s.now (from at)) }
    ensures { filled result store.new ≡ fills pen (follow (opened (samples base_mode depth_limit) format) s.now (from at)) store.old }
{
    match kind_of(format) {
        SampleKind::Flows(k) => {
            let first = at + 4 * (k as usize);
            let n = load::be32(s, first - 4);
            put_sample_flows(s, first, n, store, pen)
        }
        SampleKind::Counters(k) => {
            let first = at + 4 * (k as usize);
            let n = load::be32(s, first - 4);
            put_counter_records(s, first, n, store, pen).word
        }
        SampleKind::Raw => pen.word,
    }
}

// One sample: its own descriptor, and what it holds behind that.
fn put_sample(s: &[u8], at: usize, store: &mut [u32], pen: Pen) -> Written
    requires { Ready s.now store.old pen (follow (sample base_mode depth_limit) s.now (from at)) }
    ensures { written result store.new ≡ placed pen (follow (sample base_mode depth_limit) s.now (from at)) store.old }
{
    let format = load::be32(s, at);
    let me = index_at(pen.base, pen.word);
    let own = put_frame(s, at, Kind::Sample as u32, 0, &mut *store, pen);
    let pen = Pen {
        parent: me,
        word: own.word,
        ..pen
    };
    Written {
        at: own.at,
        word: put_sample_data(s, at + 8, format, store, pen),
    }
}

// n samples in a row.
pub fn put_samples(s: &[u8], at: usize, n: u32, store: &mut [u32], pen: Pen) -> Written
    requires { Ready s.now store.old pen (times n (follow (sample base_mode depth_limit)) s.now (from at)) }
    ensures { written result store.new ≡ placed pen (times n (follow (sample base_mode depth_limit)) s.now (from at)) store.old }
{
    let mut cur = at;
    let mut word = pen.word;
    for _ in (0..n).rev() {
        let w = put_sample(s, cur, &mut *store, Pen { word, ..pen });
        cur = w.at;
        word = w.word;
    }
    Written { at: cur, word }
}
