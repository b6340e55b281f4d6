// The first pass over samples, which counts descriptors and keeps nothing. Its loops stay apart, a few lines each (docs/DECISIONS.md, 17).
ghost use Rattle.std.specs.Prelude.{◌≡◌, ◌≤◌};
ghost use Rattle.reading.specs.Sizes.{depth_limit};
ghost use Rattle.reading.specs.Script.{nothing};
ghost use Rattle.reading.specs.Cursor.{times, follow};
ghost use Rattle.reading.specs.Layout.{any_word, opened, flow, counter, samples, sample};
ghost use Rattle.reading.proofs.Counts.{counted};
ghost use Rattle.xdr.specs.Shown.{place, Inside, passed_out};
ghost use Rattle.layout.specs.Scanned.{Scan};
ghost use Rattle.layout.specs.Shown.{mode_of, scanned_out};
ghost use Rattle.samples.specs.Held.{last_of};

use crate::kinds::{SampleKind, kind_of};
use counters::data;
use flows::{MAX_DEPTH, scan, scan_ahead};
use layout::field::Mode;
use layout::frames::{Frame, Scanned};
use load;
use xdr::{Cursor, Passed, Read};

// One counter record, whose payload has no descriptor more.
fn counter_record(s: &[u8], c: Cursor, count: usize) -> Scanned
    requires { Scan s.now c count }
    ensures { scanned_out result ≡ counted count (follow counter s.now (place c)) }
{
    let (frame, behind) = Frame::parse(c, s)?;
    let held = &s[..frame.end()];
    let end = data::pass(frame.first(behind), held, frame.format)?;
    Ok((count + 1, behind.with_steps(end)))
}

// n counter records in a row.
fn counter_records(s: &[u8], c: Cursor, n: u32, count: usize) -> Scanned
    requires { Scan s.now c count }
    ensures { scanned_out result ≡ counted count (times n (follow counter) s.now (place c)) }
{
    let mut cur = c;
    let mut found = count;
    for i in 0..n {
        let (k, d) = counter_record(s, cur, found)?;
        cur = d;
        found = k;
    }
    Ok((found, cur))
}

// n flow records of a sample: those that are passed ahead, and the others.
fn flow_records(s: &[u8], c: Cursor, n: u32, mode: Mode, count: usize) -> Scanned
    requires { Scan s.now c count }
    ensures { scanned_out result ≡ counted count (times n (follow (flow (mode_of mode) depth_limit depth_limit)) s.now (place c)) }
{
    let ahead = scan_ahead::flow_records(s, c, n, count);
    if ahead.rest == 0 {
        return Ok((ahead.count, ahead.cursor));
    }
    // Lent anew, so that its two words go to the stack only where there is a call.
    scan::flow_records(&*s, ahead.cursor, ahead.rest, MAX_DEPTH, mode, ahead.count)
}

// Past n words. Most samples have eight, which is then a number that the compiler knows.
fn past_words(c: Cursor, s: &[u8], n: u32) -> Passed
    requires { Inside s.now c }
    ensures { passed_out result nothing ≡ times n (follow any_word) s.now (place c) }
{
    if n == 8 {
        return c.read_words(s, 8);
    }
    c.read_words(s, n)
}

// Past n words, and the last of them.
fn last_word(c: Cursor, s: &[u8], n: u32) -> Read<u32>
    requires inside { Inside s.now c }
    requires some { 1 ≤ n }
    ensures { scanned_out result ≡ last_of n s.now (place c) }
{
    let end = past_words(c, s, n)?;
    Ok((load::be32(s, end.at - 4), end))
}

// What a sample of this format holds.
fn sample_data(s: &[u8], c: Cursor, format: u32, mode: Mode, count: usize) -> Scanned
    requires { Scan s.now c count }
    ensures { scanned_out result ≡ counted count (follow (opened (samples (mode_of mode) depth_limit) format) s.now (place c)) }
{
    match kind_of(format) {
        SampleKind::Flows(words) => {
            let (n, first) = last_word(c, s, words)?;
            flow_records(s, first, n, mode, count)
        }
        SampleKind::Counters(words) => {
            let (n, first) = last_word(c, s, words)?;
            counter_records(s, first, n, count)
        }
        SampleKind::Raw => Ok((count, c)),
    }
}

// One sample.
fn one_sample(s: &[u8], c: Cursor, mode: Mode, count: usize) -> Scanned
    requires { Scan s.now c count }
    ensures { scanned_out result ≡ counted count (follow (sample (mode_of mode) depth_limit) s.now (place c)) }
{
    let (frame, behind) = Frame::parse(c, s)?;
    let payload = &s[..frame.end()];
    let (found, end) = sample_data(payload, frame.first(behind), frame.format, mode, count + 1)?;
    Ok((found, behind.with_steps(end)))
}

// n samples in a row.
pub fn samples(s: &[u8], c: Cursor, n: u32, mode: Mode, count: usize) -> Scanned
    requires { Scan s.now c count }
    ensures { scanned_out result ≡ counted count (times n (follow (sample (mode_of mode) depth_limit)) s.now (place c)) }
{
    let mut cur = c;
    let mut found = count;
    for i in 0..n {
        let (k, d) = one_sample(s, cur, mode, found)?;
        cur = d;
        found = k;
    }
    Ok((found, cur))
}
