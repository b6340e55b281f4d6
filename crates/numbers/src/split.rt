// A 32-bit word as two parts, split above its lower LOW bits.
ghost use Rattle.std.specs.Prelude.{◌≡◌, ◌<◌};
ghost use Rattle.numbers.specs.Split.{upper, lower, join};

// What stands above the lower bits.
pub(crate) fn upper<const LOW: u32>(word: u32) -> u32
    requires { LOW < 32 }
    ensures { result ≡ upper LOW word }
{
    word >> LOW
}

// The lower bits.
#[tactic(auto, using(crate::proofs::Masks::by_mask))]
pub(crate) fn lower<const LOW: u32>(word: u32) -> u32
    requires { LOW < 32 }
    ensures { result ≡ lower LOW word }
{
    word & ((1 << LOW) - 1)
}

// The word that has these parts; of each the bits that are too high for its place are dropped.
#[tactic(auto, using(crate::proofs::Masks::by_or))]
pub(crate) fn join<const LOW: u32>(high: u32, low: u32) -> u32
    requires { LOW < 32 }
    ensures { result ≡ join LOW high low }
{
    high << LOW | lower::<LOW>(low)
}
