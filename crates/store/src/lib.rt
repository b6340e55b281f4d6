// The store: a descriptor, its words by name, and where the next one goes. What writes descriptors writes them here.
#![tactic(auto)]

ghost use Rattle.std.specs.Prelude.{◌≡◌, ◌+◌, ◌/◌, ◌^◌, ◌≤◌, ◌<◌, length};
ghost use Rattle.reading.specs.Answer.{row_of};
ghost use Rattle.reading.specs.Sizes.{descriptor_words};
ghost use Rattle.reading.proofs.Stored.{write};
ghost use Rattle.store.specs.Written.{range_of, FramedHere, written, framed_at};

use load;
use numbers::DataFormat;

// What a descriptor is of. The number is the descriptor's first word.
#[derive(Clone, Copy, Debug, PartialEq, Eq)]
pub enum Kind {
    Datagram = 0,
    Sample = 1,
    FlowRecord = 2,
    CounterRecord = 3,
    Pdu = 4,
}

// Where descriptors go: the index of this part's first, the parent's index, and the word of this part where the next one begins. The store is no
// part of it, since its rest is lent on from a word (docs/RULES.md, R15.5).
#[derive(Clone, Copy)]
pub struct Pen {
    pub base: u32,
    pub parent: u32,
    pub word: usize,
}

// Where a pass has come to: the next byte, and the word where the next descriptor begins.
#[derive(Clone, Copy)]
pub struct Written {
    pub at: usize,
    pub word: usize,
}

// A descriptor, word for word. Its kind is a number, since a host may hand back any.
#[derive(Clone, Copy)]
pub struct Descriptor {
    pub kind: u32,
    pub format: DataFormat,
    pub start: u32,
    pub length: u32,
    pub parent: u32,
    pub depth: u32,
    pub first: u32,
}

// The words of a descriptor in the store.
pub const DESCRIPTOR_WORDS: usize = 7;

// The index of the descriptor that begins at a word. What writes a record's PDUs has these two numbers, and no pen.
pub fn index_at(base: u32, word: usize) -> u32
    requires { base + word / descriptor_words < 2 ^ 32 }
    ensures { result ≡ base + word / descriptor_words }
{
    base + (word / DESCRIPTOR_WORDS) as u32
}

// The one place that stores, a store for each word: `copy_from_slice` of an array of them writes the array first, and asks whether it overlaps.
pub fn put(store: &mut [u32], at: usize, d: Descriptor)
    requires { at + descriptor_words ≤ length store.old }
    ensures { store.new ≡ write store.old at (row_of d.parent (range_of d)) }
{
    store[at] = d.kind;
    store[at + 1] = d.format.0;
    store[at + 2] = d.start;
    store[at + 3] = d.length;
    store[at + 4] = d.parent;
    store[at + 5] = d.depth;
    store[at + 6] = d.first;
}

// The descriptor of the frame at `at`; past the frame. The kind is a number, as the descriptor has it.
#[tactic(auto, unfolding(crate::specs::Written::framed_at))]
pub fn put_frame(s: &[u8], at: usize, kind: u32, depth: u32, store: &mut [u32], pen: Pen) -> Written
    requires { FramedHere s.now store.old at pen }
    ensures { written result store.new ≡ framed_at kind depth s.now at pen store.old }
{
    let length = load::be32(s, at + 4);
    let start = at + 8;
    // Asked for before the descriptor is stored, so that it is at hand where the next frame is read.
    let end = start + load::padded(length as usize);
    let word = pen.word;
    put(
        store,
        word,
        Descriptor {
            kind,
            format: DataFormat(load::be32(s, at)),
            start: start as u32,
            length,
            parent: pen.parent,
            depth,
            first: at as u32,
        },
    );
    Written {
        at: end,
        word: word + DESCRIPTOR_WORDS,
    }
}
