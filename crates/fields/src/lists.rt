// What a field reading answers by where it lies: the words of a list, and the segments of an AS path.
ghost use Rattle.std.specs.Prelude.{◌≡◌};
ghost use Rattle.reading.specs.Answer.{list_word_of, segment_at};
ghost use Rattle.xdr.specs.Shown.{answer_of};
ghost use Rattle.layout.specs.Shown.{a_segment};
ghost use Rattle.fields.specs.Shown.{a_word, listed, Begins};

use crate::ask::unread;
use layout::field::Mode;
use layout::lists::Segment;
use layout::record::Reading;
use load;
use xdr::{Cursor, MAX_INPUT_SIZE, Passed, Reason, Span};

// A word of a list, if there is one, as C has it.
#[repr(C)]
#[derive(Clone, Copy, Default)]
pub struct Listed {
    pub present: bool,
    pub value: u32,
}

impl From<Option<u32>> for Listed {
    ghost from_gives = { λ w r. listed r ≡ a_word w };

    fn from(word: Option<u32>) -> Listed {
        match word {
            Some(value) => Listed {
                present: true,
                value,
            },
            None => Listed::default(),
        }
    }
}

// The word with this index of a list that was answered as start and count, as C has it: made at once, which takes less time than by an `Option`.
#[tactic(auto, unfolding(reading::specs::Answer::list_word_of))]
pub fn word_of(s: &[u8], list: Span, index: usize) -> Listed
    ensures { listed result ≡ list_word_of s.now list.start list.count index }
{
    if s.len() < list.start || list.count <= index || (s.len() - list.start) / 4 <= index {
        return None.into();
    }
    Some(load::be32(s, list.start + 4 * index)).into()
}

// The same for a caller in Rattle.
#[tactic(auto, unfolding(reading::specs::Answer::list_word_of))]
pub fn list_word(s: &[u8], list: Span, index: usize) -> Option<u32>
    ensures { a_word result ≡ list_word_of s.now list.start list.count index }
{
    let there = s.len().checked_sub(list.start)? / 4;
    let listed = index < list.count && index < there;
    listed.then(|| load::be32(s, list.start + 4 * index))
}

// Where a segment is read from.
#[tactic(auto, unfolding(reading::specs::Answer::segment_at))]
fn segment_start(s: &[u8], at: usize) -> Passed
    ensures { Begins s.now at result }
{
    if MAX_INPUT_SIZE < s.len() {
        return Err(unread(Reason::InputTooLong));
    }
    if s.len() < at {
        return Err(unread(Reason::OutsideInput));
    }
    Ok(Cursor { at, steps: 0 })
}

// The segment of an AS path at `at`; its outcome's position is where the next one begins.
pub fn next_segment(s: &[u8], at: usize) -> Reading<Segment>
    ensures { answer_of result.outcome (a_segment result.fields) ≡ segment_at s.now at }
{
    Reading::<Segment>::of(segment_start(s, at), s, Mode::Memo)
}
