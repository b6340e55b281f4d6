// Numbers and blocks at a place of the bytes, where they are known to be there; and how far a pad goes.
#![tactic(auto)]

ghost use Rattle.std.specs.Prelude.{◌≡◌, ◌+◌, ◌^◌, ◌≤◌, ◌<◌, length, take, drop};
ghost use Rattle.reading.specs.Bytes.{be4, be8, signed, padded};

// The N bytes at `at`.
pub fn block<const N: usize>(s: &[u8], at: usize) -> [u8; N]
    requires { at + N ≤ length s.now }
    ensures { result ≡ take N (drop at s.now) }
{
    let mut bytes = [0; N];
    bytes.copy_from_slice(&s[at..at + N]);
    bytes
}

// The big-endian number of four bytes.
#[tactic(auto, unfolding(reading::specs::Bytes::be4))]
pub fn be32(s: &[u8], at: usize) -> u32
    requires { at + 4 ≤ length s.now }
    ensures { result ≡ be4 s.now at }
{
    u32::from_be_bytes([s[at], s[at + 1], s[at + 2], s[at + 3]])
}

// The big-endian number of eight bytes.
#[tactic(auto, unfolding(reading::specs::Bytes::be8, reading::specs::Bytes::be4))]
pub fn be64(s: &[u8], at: usize) -> u64
    requires { at + 8 ≤ length s.now }
    ensures { result ≡ be8 s.now at }
{
    u64::from_be_bytes(block(s, at))
}

// How many bytes an opaque of so many has with its pad. `next_multiple_of` compiles to three instructions more, and a walk over small records
// takes 1.1 times as long by it.
pub fn padded(count: usize) -> usize
    requires { count < 2 ^ 32 }
    ensures { result ≡ padded count }
{
    (count + 3) / 4 * 4
}

// A word as a signed number, in two's complement: the library's method, whose contract here stands under this name.
#[tactic(auto, unfolding(reading::specs::Bytes::signed))]
pub fn int32(word: u32) -> i32
    ensures { result ≡ signed word }
{
    word.cast_signed()
}
