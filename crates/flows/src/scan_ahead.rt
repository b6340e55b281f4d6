// Flow records that are passed ahead of the full reading, in one loop: those of the layouts that are most often met, which hold no others and
// no text. A record that is of another format, or has something amiss, is where it stops: `scan` reads every record, and tells.
ghost use Rattle.std.specs.Prelude.{◌≤◌, length, IfSome};
ghost use Rattle.reading.specs.Sizes.{longest_input};
ghost use Rattle.xdr.specs.Shown.{Inside};
ghost use Rattle.layout.specs.Scanned.{Scan};
ghost use Rattle.flows.specs.Passing.{Passes, PassesRecord, AheadOf};

use layout::frames::Frame;
use load;
use xdr::Cursor;

// Where it has come to: the records that are left, and the descriptors so far.
#[derive(Clone, Copy)]
pub struct Ahead {
    pub cursor: Cursor,
    pub rest: u32,
    pub count: usize,
}

// Format 1, by one look at its words and its end.
fn sampled_header(c: Cursor, s: &[u8]) -> Option<Cursor>
    requires inside { Inside s.now c }
    requires s_len_bound { length s.now ≤ longest_input }
    ensures { IfSome result (Passes s.now c 1) }
{
    let room = s.len() - c.at;
    if room < 16 {
        return None;
    }
    match load::be32(s, c.at) {
        1..=17 => {}
        _ => return None,
    }
    let length = load::be32(s, c.at + 12);
    let padded = load::padded(length as usize);
    if room - 16 < padded {
        return None;
    }
    Some(Cursor {
        at: c.at + 16 + padded,
        steps: c.steps + 4,
    })
}

// The payload of a record of this format.
fn payload(c: Cursor, s: &[u8], format: u32) -> Option<Cursor>
    requires inside { Inside s.now c }
    requires s_len_bound { length s.now ≤ longest_input }
    ensures { IfSome result (Passes s.now c format) }
{
    match format {
        1 => sampled_header(c, s),
        1001 => c.read_words(s, 4).ok(),
        _ => None,
    }
}

// One record, likewise.
fn one_record(s: &[u8], c: Cursor) -> Option<Cursor>
    requires inside { Inside s.now c }
    requires s_len_bound { length s.now ≤ longest_input }
    ensures { IfSome result (PassesRecord s.now c) }
{
    let Ok((frame, behind)) = Frame::parse(c, s) else {
        return None;
    };
    let held = &s[..frame.end()];
    let end = payload(frame.first(behind), held, frame.format)?;
    Some(behind.with_steps(end))
}

// Of n records of a sample, those up to the first that stops it.
pub fn flow_records(s: &[u8], c: Cursor, n: u32, count: usize) -> Ahead
    requires { Scan s.now c count }
    ensures { AheadOf s.now c n count result }
{
    let mut cursor = c;
    for i in 0..n {
        match one_record(s, cursor) {
            Some(behind) => cursor = behind,
            None => {
                return Ahead {
                    cursor,
                    rest: n - i,
                    count: count + i as usize,
                };
            }
        }
    }
    Ahead {
        cursor,
        rest: 0,
        count: count + n as usize,
    }
}
