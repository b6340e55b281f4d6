// Runs the items of `xdr` over stored vectors from standard input, and prints a line for each: the item, the vector's bytes, where
// the cursor starts, and the answer. tests/probe/vectors.py makes the vectors, and the lines that are expected.
//
// A vector is four bytes and what they announce: the item's letter, a count (of words, for a run of them), where the cursor
// starts, and how many bytes follow; then those bytes.
#![tactic(auto)]

use std::io;

mod items;
mod print;

// The bytes of input that are read; any behind them are not.
const LARGEST: usize = 65536;

// The vectors one behind another, of which the last may be cut.
fn vectors(rt: &impl Print, s: &[u8]) -> io::Result<()> {
    let mut rest = s;
    while let Some((head, behind)) = rest.split_first_chunk::<4>() {
        let [letter, count, start, size] = *head;
        let Some((bytes, next)) = behind.split_at_checked(usize::from(size)) else {
            break;
        };
        items::item(rt, letter, count, usize::from(start), bytes)?;
        rest = next;
    }
    if !rest.is_empty() {
        println!(rt; "input=cut")?;
    }
    Ok(())
}

fn main(rt: HostRuntime) -> io::Result<()> {
    let mut buffer = [0u8; LARGEST];
    let n = printing::input::read_full(&rt, &mut buffer)?;
    vectors(&rt, &buffer[..n])
}
