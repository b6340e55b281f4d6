// The items of RFC 4506 that an sFlow datagram is made of, read by a cursor that is handed over and handed back with each item.
#![tactic(auto)]

ghost use Rattle.std.specs.Prelude.{◌≡◌, ◌+◌, ◌^◌, ◌≤◌, ◌<◌};
ghost use Rattle.xdr.specs.Shown.{accepted, behind, code_of, ended, ended_by, ill_formed_of, passed_of, refused, resumed};

mod addresses;
mod blocks;
mod opaques;
mod words;

// The bytes of the longest input.
pub const MAX_INPUT_SIZE: usize = 16777216;

// The bytes of the longest opaque, as the crate has it.
pub const MAX_OPAQUE_SIZE: u32 = 104857600;

// Where a reading stands: the next byte, counted from the input's first, and the items read so far. It goes by value beside the input, which a
// part of it takes the place of inside each opaque (docs/RULES.md, R15.1).
#[derive(Clone, Copy)]
pub struct Cursor {
    pub at: usize,
    pub steps: usize,
}

// Why nothing is read on, by its code (docs/RULES.md, 5).
#[derive(Clone, Copy, PartialEq, Eq)]
pub enum Reason {
    InputTooLong = 1,
    Cut = 2,
    Version = 3,
    AddressType = 4,
    OpaqueTooLong = 5,
    HeaderProtocol = 6,
    IllFormed = 7,
    TooDeep = 8,
    NoRoom = 9,
    OutsideInput = 10,
    OtherFormat = 11,
}

// A refusal: why, the position, and the items read before it.
#[derive(Clone, Copy)]
pub struct Refusal {
    pub reason: Reason,
    pub at: usize,
    pub steps: usize,
}

// What was read, and the cursor behind it; or a refusal.
pub type Read<T> = Result<(T, Cursor), Refusal>;

// What was read is passed, and its value is not in the answer.
pub type Passed = Result<Cursor, Refusal>;

// How a reading ends, in plain numbers as C has them: its code, the position, and the items read. Code 0 is no refusal.
#[repr(C)]
#[derive(Clone, Copy)]
pub struct Outcome {
    pub code: u32,
    pub at: usize,
    pub steps: usize,
}

// A range of the input.
#[repr(C)]
#[derive(Clone, Copy, Default)]
pub struct Span {
    pub start: usize,
    pub count: usize,
}

// An address, as C has it: its type, and sixteen bytes of which type 1 uses the first four; unused ones are zero.
#[repr(C)]
#[derive(Clone, Copy, Default)]
pub struct Address {
    pub kind: u32,
    pub bytes: [u8; 16],
}

impl Cursor {
    // The refusal of the item at the cursor.
    pub fn refusal(self, reason: Reason) -> Refusal
        ensures { result ≡ refused reason self }
    {
        Refusal {
            reason,
            at: self.at,
            steps: self.steps,
        }
    }

    // The refusal of the string at the cursor, whose bytes go bad at `at`.
    pub fn ill_formed(self, at: usize) -> Refusal
        ensures { result ≡ ill_formed_of at self }
    {
        Refusal {
            reason: Reason::IllFormed,
            at: at,
            steps: self.steps,
        }
    }

    // A reading that ends at the cursor, in plain numbers: any code, also one that stands for no reason.
    pub fn ended_by(self, code: u32) -> Outcome
        ensures { result ≡ ended_by code self }
    {
        Outcome {
            code,
            at: self.at,
            steps: self.steps,
        }
    }

    // All is read up to the cursor.
    pub fn accepted(self) -> Outcome
        ensures { result ≡ accepted self }
    {
        self.ended_by(0)
    }

    // The cursor, with the steps of what was read inside of what ends here.
    pub fn with_steps(self, inner: Cursor) -> Cursor
        ensures { result ≡ resumed self inner }
    {
        Cursor {
            at: self.at,
            steps: inner.steps,
        }
    }

    // The cursor behind an item of n bytes.
    pub fn past(self, n: usize) -> Cursor
        requires { (self.at + n < 2 ^ 64) × (self.steps ≤ self.at) × (0 < n) }
        ensures { result ≡ behind n self }
    {
        Cursor {
            at: self.at + n,
            steps: self.steps + 1,
        }
    }
}

impl Reason {
    pub fn code(self) -> u32
        ensures { result ≡ code_of self }
    {
        self as u32
    }
}

impl From<Refusal> for Outcome {
    ghost from_gives = { λ x o. o ≡ ended x };

    fn from(x: Refusal) -> Outcome {
        Outcome {
            code: x.reason.code(),
            at: x.at,
            steps: x.steps,
        }
    }
}

impl Outcome {
    // What is read on from.
    pub fn passed(self) -> Result<Cursor, Outcome>
        ensures { result ≡ passed_of self }
    {
        if self.code == 0 {
            return Ok(Cursor {
                at: self.at,
                steps: self.steps,
            });
        }
        Err(self)
    }
}
