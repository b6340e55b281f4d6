// What the programs' lines are made of. What they print and read goes through the runtime that `main` is given.
#![tactic(auto)]

use crate::bytes::Hex;
use std::{fmt, io};

pub mod bytes;
pub mod input;

// A byte as two hexadecimal digits.
pub fn hex(rt: &impl Print, b: u8) -> io::Result<()> {
    rt.print(Hex(&[b]))
}

// Bytes as they are. The programs print by format strings; this, `hex` and `number` stay, since they are public.
pub fn text(rt: &impl Print, s: &[u8]) -> io::Result<()> {
    rt.write_all(s)
}

// A number behind its name.
pub fn number(rt: &impl Print, name: &[u8], n: impl fmt::Display + Drop) -> io::Result<()> {
    text(rt, name)?;
    rt.print(n)
}
