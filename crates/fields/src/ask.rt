// What comes before every field reading: whether the descriptor is one that it reads, and lies in the input; and the reading itself.
ghost use Rattle.std.specs.Prelude.{◌≡◌, ℕ};
ghost use Rattle.reading.specs.Answer.{layout_of};
ghost use Rattle.xdr.specs.Shown.{answer_of};
ghost use Rattle.layout.specs.Shown.{mode_of};
ghost use Rattle.fields.specs.Shown.{Asks, read_at, unread, unread_by};

use crate::descriptor::{Words, descriptor};
use layout::field::Mode;
use layout::record::{Reading, Record};
use xdr::{Cursor, MAX_INPUT_SIZE, Outcome, Reason, Refusal};

// A refusal before the first item.
pub fn unread(reason: Reason) -> Refusal
    ensures { result ≡ unread reason }
{
    Refusal {
        reason,
        at: 0,
        steps: 0,
    }
}

// The same in plain numbers, as C has them: any code, also one that stands for no reason.
pub fn unread_by(code: u32) -> Outcome
    ensures { result ≡ unread_by code }
{
    let first = Cursor { at: 0, steps: 0 };
    first.ended_by(code)
}

// Where to read from, and where the range ends. Kind and format are numbers, as in a descriptor that a host hands back.
#[tactic(auto, unfolding(reading::specs::Answer::read))]
pub fn ask(s: &[u8], d: &Words, kind: u32, format: u32) -> Result<(Cursor, usize), Refusal>
    ensures { Asks kind format s.now d.now result }
{
    if MAX_INPUT_SIZE < s.len() {
        return Err(unread(Reason::InputTooLong));
    }
    let x = descriptor(d);
    let start = x.start as usize;
    let end = start + x.length as usize;
    if s.len() < end {
        return Err(unread(Reason::OutsideInput));
    }
    if x.kind != kind || x.format.0 != format {
        return Err(unread(Reason::OtherFormat));
    }
    let first = Cursor {
        at: start,
        steps: 0,
    };
    Ok((first, end))
}

// The fields of a descriptor of this kind and format, which are numbers as in `ask`, as the record T has them.
pub fn read<T: Record>(s: &[u8], d: &Words, kind: u32, format: u32, mode: Mode) -> Reading<T>
    requires { T.layout (mode_of mode) ≡ layout_of (mode_of mode) kind format }
    ensures { answer_of result.outcome (T.values result.fields) ≡ read_at (mode_of mode) kind format s.now d.now }
{
    match ask(s, d, kind, format) {
        Ok((c, end)) => Reading::<T>::of(Ok(c), &s[..end], mode),
        Err(x) => Reading::<T>::refused(x),
    }
}
