// The items of `xdr` by their letters, and the line of each: its name, the vector's bytes and where the cursor starts; then what the item answers there.
use crate::print;
use printing::bytes::Hex;
use std::io;
use xdr::{Address, Cursor, Passed, Read, Span};

// A vector: its bytes, and where the cursor starts.
#[derive(Clone, Copy)]
struct Vector<'a> {
    bytes: &'a [u8],
    start: usize,
}

// A value that an item gives.
trait Shown: Copy {
    fn print(self, rt: &impl Print) -> io::Result<()>;

    // What stands on a refusal's line, if anything does.
    fn refused() -> Option<Self> {
        None
    }
}

// Three numbers, a line each: a trait that they share, for one impl of all, would be no shorter.
impl Shown for u32 {
    fn print(self, rt: &impl Print) -> io::Result<()> {
        print!(rt; " got={self}")
    }
}

impl Shown for u64 {
    fn print(self, rt: &impl Print) -> io::Result<()> {
        print!(rt; " got={self}")
    }
}

impl Shown for i32 {
    fn print(self, rt: &impl Print) -> io::Result<()> {
        print!(rt; " got={self}")
    }
}

impl Shown for Span {
    fn print(self, rt: &impl Print) -> io::Result<()> {
        let Span { start, count } = self;
        print!(rt; " start={start} count={count}")
    }
}

// A block and an address have sixteen bytes on a line, on a refusal's too.
const WIDEST: [u8; 16] = [0; 16];

impl<const N: usize> Shown for [u8; N] {
    fn print(self, rt: &impl Print) -> io::Result<()> {
        let behind = WIDEST.get(N..).unwrap_or(&[]);
        print!(rt; " bytes={}{}", Hex(&self), Hex(behind))
    }

    fn refused() -> Option<Self> {
        Some([0; N])
    }
}

impl Shown for Address {
    fn print(self, rt: &impl Print) -> io::Result<()> {
        let Address { kind, bytes } = self;
        print!(rt; " type={kind} bytes={}", Hex(&bytes))
    }

    fn refused() -> Option<Self> {
        Some(Address::default())
    }
}

impl Vector<'_> {
    // The beginning of a line.
    fn name(self, rt: &impl Print, name: &str) -> io::Result<()> {
        print!(rt; "{name} ")?;
        print::octets(rt, self.bytes)?;
        print!(rt; " from={}", self.start)
    }

    fn line<T: Shown>(self, rt: &impl Print, name: &str, read: Read<T>) -> io::Result<()> {
        self.name(rt, name)?;
        match read {
            Ok((value, d)) => {
                value.print(rt)?;
                print::stands(rt, d)
            }
            Err(x) => {
                if let Some(value) = T::refused() {
                    value.print(rt)?;
                }
                print::refusal(rt, x)
            }
        }
    }

    fn bad(self, rt: &impl Print) -> io::Result<()> {
        self.name(rt, "input=bad")?;
        println!(rt; "")
    }
}

// A run of `count` words.
fn words(rt: &impl Print, v: Vector, count: u8, passed: Passed) -> io::Result<()> {
    v.name(rt, "words")?;
    print!(rt; " words={count}")?;
    match passed {
        Ok(d) => print::stands(rt, d),
        Err(x) => print::refusal(rt, x),
    }
}

// The item of this letter, read at `start` of s with no step before it. The letters stand here alone, so an enum of them would be no plainer.
pub fn item(rt: &impl Print, letter: u8, count: u8, start: usize, s: &[u8]) -> io::Result<()> {
    let v = Vector { bytes: s, start };
    if s.len() < start {
        return v.bad(rt);
    }
    let c = Cursor {
        at: start,
        steps: 0,
    };
    match letter {
        b'w' => v.line(rt, "u32", c.read_u32(s)),
        b'l' => v.line(rt, "u64", c.read_u64(s)),
        b'i' => v.line(rt, "i32", c.read_i32(s)),
        b'4' => v.line(rt, "block4", c.read_fixed::<4>(s)),
        b'6' => v.line(rt, "block6", c.read_fixed::<6>(s)),
        b'8' => v.line(rt, "block8", c.read_fixed::<8>(s)),
        b'x' => v.line(rt, "block16", c.read_fixed::<16>(s)),
        b'o' => v.line(rt, "opaque", c.read_opaque(s)),
        b's' => v.line(rt, "string", c.read_string(s)),
        b'a' => v.line(rt, "address", c.parse_address(s)),
        b'r' => words(rt, v, count, c.read_words(s, u32::from(count))),
        _ => v.bad(rt),
    }
}
