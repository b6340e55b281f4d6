// The numbers of sFlow that hold two parts in one 32-bit word, each a type of its own.
#![tactic(auto)]

ghost use Rattle.std.specs.Prelude.{◌≡◌, eqb};
ghost use Rattle.numbers.specs.Split.{upper, lower, join};

use split::{join, lower, upper};

mod split;

// How many bits the lower part has: the format of a DataFormat, the index of a DataSource, the value of an Interface.
const FORMAT_BITS: u32 = 12;

const INDEX_BITS: u32 = 24;

const VALUE_BITS: u32 = 30;

// What an opaque structure holds: the enterprise in the upper 20 bits, its format in the lower 12.
#[repr(C)]
#[derive(Clone, Copy, Debug, Default, PartialEq, Eq, PartialOrd, Ord, Hash)]
pub struct DataFormat(pub u32);

// Where the data comes from: the type of source in the upper 8 bits, its index in the lower 24.
#[repr(C)]
#[derive(Clone, Copy, Debug, Default, PartialEq, Eq, PartialOrd, Ord, Hash)]
pub struct DataSource(pub u32);

// An interface: the format in the upper 2 bits, and in the lower 30 the value that the format gives a meaning.
#[repr(C)]
#[derive(Clone, Copy, Debug, Default, PartialEq, Eq, PartialOrd, Ord, Hash)]
pub struct Interface(pub u32);

// The formats of an interface that have a meaning: each is asked for by a public function of its own.
#[derive(Clone, Copy)]
enum Meaning {
    Single = 0,
    Discarded = 1,
    Multiple = 2,
}

impl DataFormat {
    // The bits of a part that are too high for its place are dropped.
    pub fn new(enterprise: u32, format: u32) -> Self
        ensures { result.0 ≡ join 12 enterprise format }
    {
        Self(join::<FORMAT_BITS>(enterprise, format))
    }

    pub fn enterprise(self) -> u32
        ensures { result ≡ upper 12 self.0 }
    {
        upper::<FORMAT_BITS>(self.0)
    }

    pub fn format(self) -> u32
        ensures { result ≡ lower 12 self.0 }
    {
        lower::<FORMAT_BITS>(self.0)
    }
}

impl DataSource {
    // The bits of the index above its lower 24 are dropped.
    pub fn new(source_type: u8, index: u32) -> Self
        ensures { result.0 ≡ join 24 source_type index }
    {
        Self(join::<INDEX_BITS>(u32::from(source_type), index))
    }

    pub fn source_type(self) -> u8
        ensures { result ≡ upper 24 self.0 }
    {
        upper::<INDEX_BITS>(self.0) as u8
    }

    pub fn index(self) -> u32
        ensures { result ≡ lower 24 self.0 }
    {
        lower::<INDEX_BITS>(self.0)
    }
}

impl Interface {
    // The bits of a part that are too high for its place are dropped.
    pub fn new(format: u8, value: u32) -> Self
        ensures { result.0 ≡ join 30 format value }
    {
        Self(join::<VALUE_BITS>(u32::from(format), value))
    }

    pub fn format(self) -> u8
        ensures { result ≡ upper 30 self.0 }
    {
        upper::<VALUE_BITS>(self.0) as u8
    }

    pub fn value(self) -> u32
        ensures { result ≡ lower 30 self.0 }
    {
        lower::<VALUE_BITS>(self.0)
    }

    // The value is the index of one interface.
    pub fn is_single(self) -> bool
        ensures { result ≡ eqb (upper 30 self.0) 0 }
    {
        self.format() == Meaning::Single as u8
    }

    // The packet was discarded, and the value is the reason.
    pub fn is_discarded(self) -> bool
        ensures { result ≡ eqb (upper 30 self.0) 1 }
    {
        self.format() == Meaning::Discarded as u8
    }

    // The packet went to several interfaces, and the value is how many.
    pub fn is_multiple(self) -> bool
        ensures { result ≡ eqb (upper 30 self.0) 2 }
    {
        self.format() == Meaning::Multiple as u8
    }
}
