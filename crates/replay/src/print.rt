// What the lines are made of.
ghost use Rattle.std.specs.Prelude.{◌*◌, ◌≤◌, ◌≡◌, length};
ghost use Rattle.reading.specs.Sizes.{descriptor_words};

use datagram::decode::{Answer, Decoded};
use fields::descriptor::Words;
use printing::bytes::Hex;
use std::io;
use store::DESCRIPTOR_WORDS;

// What every word of a lent store holds beforehand.
pub const LENT: u32 = 0xa5a5a5a5;

// The beginning of a line: the call, and what it answers.
pub fn answer(rt: &impl Print, call: &str, a: Answer) -> io::Result<()> {
    let Answer {
        code,
        at,
        steps,
        needed,
    } = a;
    print!(rt; "{call} code={code} at={at} steps={steps} needed={needed}")
}

// The header of a datagram: its address as a type and sixteen bytes, and the words behind it.
pub fn header(rt: &impl Print, d: Decoded) -> io::Result<()> {
    let kind = d.agent_address.kind;
    let bytes = d.agent_address.bytes;
    let agent = d.sub_agent_id;
    let sequence = d.sequence_number;
    let uptime = d.uptime;
    let samples = d.num_samples;
    print!(rt;
        " header={kind},{},{agent},{sequence},{uptime},{samples}",
        Hex(&bytes)
    )
}

// The descriptors that a call leaves in the store: there are some where the code is 0.
pub fn descriptors(a: Answer, store: &[u32]) -> &[Words]
    requires { a.code ≡ 0 → descriptor_words * a.needed ≤ length store.now }
    ensures { descriptor_words * length result.now ≤ length store.now }
{
    let (whole, _) = store.as_chunks::<DESCRIPTOR_WORDS>();
    if a.code == 0 { &whole[..a.needed] } else { &[] }
}

// The end of a line: how many words behind the descriptors are as they were lent, and the descriptors.
pub fn left(rt: &impl Print, a: Answer, store: &[u32]) -> io::Result<()>
    requires { a.code ≡ 0 → descriptor_words * a.needed ≤ length store.now }
{
    let written = descriptors(a, store);
    let behind = &store[DESCRIPTOR_WORDS * written.len()..];
    let kept = behind.iter().filter(|w| **w == LENT).count();
    print!(rt; " kept={kept}")?;
    for words in written {
        let [kind, format, start, length, parent, depth, first] = *words;
        print!(rt; "; {kind},{format},{start},{length},{parent},{depth},{first}")?;
    }
    println!(rt; "")
}
