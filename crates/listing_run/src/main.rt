// Standard input as a run of datagrams, up to 65,536 bytes: the answer, and the descriptors. With `--base` in the base mode.
#![tactic(auto)]

use datagram::run::decode_run;
use std::io;
use store::DESCRIPTOR_WORDS;

// The longest input, and the words of a store that has room for any of that length: a descriptor owns four bytes.
const MOST: usize = 65536;

const STORE_WORDS: usize = MOST / 4 * DESCRIPTOR_WORDS;

// What both listings do stands in `listing_lines`: here are arrays of the program's own size, which no argument gives, and its call.
fn main(rt: HostRuntime) -> io::Result<()> {
    let mut buffer = [0u8; MOST + 1];
    let Some((mode, s)) = listing_lines::given(&rt, &mut buffer)? else {
        return Ok(());
    };
    let mut store = [0u32; STORE_WORDS];
    let answer = decode_run(s, &mut store, mode);
    listing_lines::list(&rt, answer, &store)
}
