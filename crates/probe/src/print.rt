// What the lines are made of.
use printing::bytes::Hex;
use std::io;
use xdr::{Cursor, Outcome, Refusal};

// Bytes in hexadecimal, and a dash where there are none.
pub fn octets(rt: &impl Print, s: &[u8]) -> io::Result<()> {
    if s.is_empty() {
        print!(rt; "-")
    } else {
        rt.print(Hex(s))
    }
}

// The end of a line: where the cursor stands behind what was read.
pub fn stands(rt: &impl Print, c: Cursor) -> io::Result<()> {
    let Cursor { at, steps } = c;
    println!(rt; " at={at} steps={steps}")
}

// The end of a line: why nothing was read.
pub fn refusal(rt: &impl Print, x: Refusal) -> io::Result<()> {
    let Outcome { code, at, steps } = x.into();
    println!(rt; " code={code} at={at} steps={steps}")
}
