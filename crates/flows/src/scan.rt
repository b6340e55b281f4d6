// Flow records, aggregations and PDUs, which hold one another: the first pass, which counts descriptors and keeps nothing. Its loops are functions
// of their own and not one that is told what to read, since a cycle through a closure gets no proof.
ghost use Rattle.std.specs.Prelude.{◌≡◌, ◌-◌, ◌≤◌};
ghost use Rattle.reading.specs.Sizes.{depth_limit};
ghost use Rattle.reading.specs.Cursor.{times, follow};
ghost use Rattle.reading.specs.Layout.{opened, flows, flow, pdu};
ghost use Rattle.reading.proofs.Counts.{counted};
ghost use Rattle.xdr.specs.Shown.{place};
ghost use Rattle.layout.specs.Scanned.{Scan};
ghost use Rattle.layout.specs.Shown.{mode_of, scanned_out};

use flow_layouts::data;
use layout::field::Mode;
use layout::frames::{Frame, Scanned};
use xdr::{Cursor, Reason};

// n flow records in a row, with `left` levels left for each.
#[cycle(scan)]
pub fn flow_records(s: &[u8], c: Cursor, n: u32, left: usize, mode: Mode, count: usize) -> Scanned
    requires { Scan s.now c count }
    ensures { scanned_out result ≡ counted count (times n (follow (flow (mode_of mode) depth_limit left)) s.now (place c)) }
{
    let mut cur = c;
    let mut found = count;
    for i in 0..n {
        let (k, d) = flow_record(s, cur, left, mode, found)?;
        cur = d;
        found = k;
    }
    Ok((found, cur))
}

// One flow record; where no level is left it may not begin.
#[cycle(scan)]
fn flow_record(s: &[u8], c: Cursor, left: usize, mode: Mode, count: usize) -> Scanned
    requires { Scan s.now c count }
    ensures { scanned_out result ≡ counted count (follow (flow (mode_of mode) depth_limit left) s.now (place c)) }
{
    if left == 0 {
        return Err(c.refusal(Reason::TooDeep));
    }
    let (frame, behind) = Frame::parse(c, s)?;
    let held = &s[..frame.end()];
    let inner = frame.first(behind);
    let (found, d) = flow_data(held, inner, frame.format, left - 1, mode, count + 1)?;
    Ok((found, behind.with_steps(d)))
}

// What a flow record of this format holds, with `left` levels left below it.
// An aggregation is known by its format, 1016, as docs/RULES.md names it: an enum would have that case and, for all other numbers, one more.
#[cycle(scan)]
fn flow_data(s: &[u8], c: Cursor, format: u32, left: usize, mode: Mode, count: usize) -> Scanned
    requires { Scan s.now c count }
    ensures { scanned_out result ≡ counted count (follow (opened (flows (mode_of mode) (pdu (depth_limit - left) (flow (mode_of mode) depth_limit left))) format) s.now (place c)) }
{
    if format == 1016 {
        return pdus(s, c, left, mode, count);
    }
    let end = data::pass(c, s, format, mode)?;
    Ok((count, end))
}

// An aggregation: a PDU count and its PDUs, each a record count and its records.
#[cycle(scan)]
fn pdus(s: &[u8], c: Cursor, left: usize, mode: Mode, count: usize) -> Scanned
    requires { Scan s.now c count }
    ensures { scanned_out result ≡ counted count (follow (opened (flows (mode_of mode) (pdu (depth_limit - left) (flow (mode_of mode) depth_limit left))) 1016) s.now (place c)) }
{
    let (n, first) = c.read_u32(s)?;
    let mut cur = first;
    let mut found = count;
    for i in 0..n {
        let (records, d) = cur.read_u32(s)?;
        let (k, e) = flow_records(s, d, records, left, mode, found + 1)?;
        cur = e;
        found = k;
    }
    Ok((found, cur))
}
