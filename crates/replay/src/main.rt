// Decodes stored inputs, and prints a line for each: the call, its answer, and what it left in the store, or the fields of each
// descriptor there. The lines that are expected were written by the oracle (tests/replay/make) from what the crate reads, so it is the base mode.
//
// A case is five bytes and what they announce: 'o' for one datagram, 'f' for one with the fields of its descriptors, or 'r' for a run of
// them, how many words of store are lent, and how many bytes follow, two bytes each; then those bytes.
#![tactic(auto)]

use datagram::decode::decode;
use datagram::run::decode_run;
use layout::field::Mode;
use printing::input::read_full;
use std::io;

mod each;
mod heads;
mod polled;
mod print;
mod records;
mod values;

// The room for a case's own bytes, whose count is below it.
const LARGEST: usize = 65536;

// The most words of store that a case may ask for.
const MOST_WORDS: usize = 4096;

const MOST_CASES: usize = 1000000;

fn one(rt: &impl Print, s: &[u8], store: &mut [u32]) -> io::Result<()> {
    let decoded = decode(s, &mut *store, Mode::Base);
    print::answer(rt, "one", decoded.answer)?;
    print::header(rt, decoded)?;
    print::left(rt, decoded.answer, &*store)
}

fn with_fields(rt: &impl Print, s: &[u8], store: &mut [u32]) -> io::Result<()> {
    let decoded = decode(s, &mut *store, Mode::Base);
    print::answer(rt, "fields", decoded.answer)?;
    each::left(rt, s, decoded.answer, &*store)
}

fn run(rt: &impl Print, s: &[u8], store: &mut [u32]) -> io::Result<()> {
    let answer = decode_run(s, &mut *store, Mode::Base);
    print::answer(rt, "run", answer)?;
    print::left(rt, answer, &*store)
}

// The call of this letter, where any that is not 'o' or 'f' is a run. An enum of the letters would be matched here alone.
fn call(rt: &impl Print, letter: u8, s: &[u8], store: &mut [u32]) -> io::Result<()> {
    match letter {
        b'o' => one(rt, s, store),
        b'f' => with_fields(rt, s, store),
        _ => run(rt, s, store),
    }
}

// A case behind its head: reads its bytes and makes its call. False where it asks for too many words, or its bytes are not all there.
fn case(rt: &(impl Input + Print), head: [u8; 5]) -> io::Result<bool> {
    let [letter, words_high, words_low, size_high, size_low] = head;
    let words = usize::from(u16::from_be_bytes([words_high, words_low]));
    let size = usize::from(u16::from_be_bytes([size_high, size_low]));
    let mut buffer = [0u8; LARGEST];
    if words > MOST_WORDS || read_full(rt, &mut buffer[..size])? < size {
        return Ok(false);
    }
    let mut store = [print::LENT; MOST_WORDS];
    call(rt, letter, &buffer[..size], &mut store[..words])?;
    Ok(true)
}

fn main(rt: HostRuntime) -> io::Result<()> {
    let mut head = [0u8; 5];
    for _ in 0..MOST_CASES {
        let n = read_full(&rt, &mut head)?;
        if n == 0 {
            break;
        }
        if n < head.len() || !case(&rt, head)? {
            return println!(rt; "input=bad");
        }
    }
    Ok(())
}
