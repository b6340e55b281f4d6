// UTF-8 byte by byte: whether a byte fits the three before it, with no look further back.
#![tactic(auto, unfolding(reading::proofs::Utf8::pick, reading::specs::Utf8::among))]

ghost use Rattle.std.specs.Prelude.{◌≡◌};
ghost use Rattle.strings.specs.Fits.{begins, awaited, least, most, second, fits};

// Whether d begins a character.
fn begins(d: u8) -> bool
    ensures { result ≡ begins d }
{
    matches!(d, 0x00..=0x7f | 0xc2..=0xf4)
}

// Whether a byte is awaited behind these three, by a character that began with one of them.
fn awaited(a: u8, b: u8, c: u8) -> bool
    ensures { result ≡ awaited a b c }
{
    0xc2 <= c || 0xe0 <= b || 0xf0 <= a
}

// The least byte that may stand behind c where one is awaited.
fn least(c: u8) -> u8
    ensures { result ≡ least c }
{
    match c {
        0xe0 => 0xa0,
        0xf0 => 0x90,
        _ => 0x80,
    }
}

// And the greatest.
fn most(c: u8) -> u8
    ensures { result ≡ most c }
{
    match c {
        0xed => 0x9f,
        0xf4 => 0x8f,
        _ => 0xbf,
    }
}

// Whether d may stand behind c where it is awaited.
fn second(c: u8, d: u8) -> bool
    ensures { result ≡ second c d }
{
    (least(c)..=most(c)).contains(&d)
}

// Whether d fits the three bytes before it.
pub fn fits(a: u8, b: u8, c: u8, d: u8) -> bool
    ensures { result ≡ fits a b c d }
{
    if awaited(a, b, c) {
        second(c, d)
    } else {
        begins(d)
    }
}
