// One datagram, for any input and any store.
ghost use Rattle.std.specs.Prelude.{◌≡◌};
ghost use Rattle.reading.specs.Answer.{one};
ghost use Rattle.xdr.specs.Shown.{code_of};
ghost use Rattle.layout.specs.Shown.{mode_of};
ghost use Rattle.datagram.specs.Shown.{decoded, Refuses, IsRead, Accepts};

use crate::header::Header;
use crate::one::{put_datagram, scan_datagram};
use layout::field::Mode;
use layout::record::Record;
use store::DESCRIPTOR_WORDS;
use xdr::{Address, Cursor, MAX_INPUT_SIZE, Reason, Refusal};

// Where every reading begins.
pub const START: Cursor = Cursor { at: 0, steps: 0 };

// What a call answers, as C has it: its code (docs/RULES.md, 5), the position, the steps, and the descriptors needed.
#[repr(C)]
#[derive(Clone, Copy)]
pub struct Answer {
    pub code: u32,
    pub at: usize,
    pub steps: usize,
    pub needed: usize,
}

// The answer to one datagram, as C has it, with its header; that is all zero on a refusal.
#[repr(C)]
#[derive(Clone, Copy)]
pub struct Decoded {
    pub answer: Answer,
    pub agent_address: Address,
    pub sub_agent_id: u32,
    pub sequence_number: u32,
    pub uptime: u32,
    pub num_samples: u32,
}

impl From<Refusal> for Answer {
    ghost from_gives = { λ x a. a ≡ record { code = code_of x.reason; at = x.at; steps = x.steps; needed = 0 } };

    fn from(x: Refusal) -> Answer {
        Answer {
            code: x.reason.code(),
            at: x.at,
            steps: x.steps,
            needed: 0,
        }
    }
}

impl Answer {
    // So many descriptors are needed, and the store has no room for them; all was read up to `end`.
    pub fn no_room(end: Cursor, needed: usize) -> Answer
        ensures { result ≡ record { code = 9; at = 0; steps = end.steps; needed = needed } }
    {
        Answer {
            code: Reason::NoRoom.code(),
            at: 0,
            steps: end.steps,
            needed,
        }
    }
}

impl Decoded {
    // Zeros by hand: a `Default` of an answer would have code 0, which is no refusal.
    fn refused(answer: Answer) -> Decoded
        ensures { Refuses result answer }
    {
        Decoded {
            answer,
            agent_address: Address::default(),
            sub_agent_id: 0,
            sequence_number: 0,
            uptime: 0,
            num_samples: 0,
        }
    }

    // All was read up to e, with k descriptors. The header is read once more: the first pass keeps nothing of it.
    fn accepted(s: &[u8], e: Cursor, k: usize) -> Decoded
        requires { IsRead s.now e k }
        ensures { Accepts s.now result e k }
    {
        match Header::read(START, s, Mode::Base) {
            Err(x) => Decoded::refused(x.into()),
            Ok((header, _)) => Decoded {
                answer: Answer {
                    code: 0,
                    at: e.at,
                    steps: e.steps,
                    needed: k,
                },
                agent_address: header.agent_address,
                sub_agent_id: header.sub_agent_id,
                sequence_number: header.sequence_number,
                uptime: header.uptime,
                num_samples: header.num_samples,
            },
        }
    }
}

// The store is written where code 0 is answered, and only then: the descriptors from its first word on.
pub fn decode(s: &[u8], store: &mut [u32], mode: Mode) -> Decoded
    ensures { decoded result store.new ≡ one (mode_of mode) s.now store.old }
{
    let too_long = MAX_INPUT_SIZE < s.len();
    if too_long {
        return Decoded::refused(START.refusal(Reason::InputTooLong).into());
    }
    match scan_datagram(s, START, mode, 0) {
        Err(x) => Decoded::refused(x.into()),
        Ok((k, e)) => {
            if store.len() / DESCRIPTOR_WORDS < k {
                return Decoded::refused(Answer::no_room(e, k));
            }
            put_datagram(s, 0, store, 0);
            Decoded::accepted(s, e, k)
        }
    }
}
