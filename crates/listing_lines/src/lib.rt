// The lines of the listing (docs/RULES.md, 12).
#![tactic(auto)]

ghost use Rattle.std.specs.Prelude.{◌*◌, ◌≤◌, ◌<◌, ◌≡◌, length, IfOk, IfSome};
ghost use Rattle.reading.specs.Sizes.{descriptor_words};

use datagram::decode::Answer;
use layout::field::Mode;
use printing::input::read_full;
use std::env::Env;
use std::io;
use store::DESCRIPTOR_WORDS;

pub mod asked;

// What a listing program is given: the mode that is asked for and the bytes of standard input, which are fewer than the buffer has.
// None where a line has told what is wrong.
pub fn given<'a>(
    rt: &(impl Env + Input + Print),
    buffer: &'a mut [u8],
) -> io::Result<Option<(Mode, &'a [u8])>>
    ensures { IfOk result (λ given. IfSome given (λ x. length x.1.now < length buffer.old)) }
{
    let Some(mode) = asked::arguments(rt)? else {
        return Ok(None);
    };
    let n = read_full(rt, &mut *buffer)?;
    if n == buffer.len() {
        println!(rt; "input=toolong")?;
        return Ok(None);
    }
    Ok(Some((mode, &buffer[..n])))
}

fn descriptor(rt: &impl Print, words: &[u32; DESCRIPTOR_WORDS]) -> io::Result<()> {
    let [kind, format, start, length, parent, depth, first] = *words;
    println!(rt;
        "kind={kind} format={format} start={start} length={length} parent={parent} depth={depth} first={first}"
    )
}

// An answer, and the descriptors where there are any.
pub fn list(rt: &impl Print, a: Answer, store: &[u32]) -> io::Result<()>
    requires { a.code ≡ 0 → descriptor_words * a.needed ≤ length store.now }
{
    let Answer {
        code,
        at,
        steps,
        needed,
    } = a;
    println!(rt; "code={code} at={at} steps={steps} descriptors={needed}")?;
    if code == 0 {
        let (descriptors, _) = store.as_chunks::<DESCRIPTOR_WORDS>();
        for words in &descriptors[..needed] {
            descriptor(rt, words)?;
        }
    }
    Ok(())
}
