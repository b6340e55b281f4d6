// Bytes as digits. The type stands apart from `hex`, since the names of two items of a module differ in more than the case of a letter.
ghost use Rattle.std.specs.Prelude.{Some};
ghost use Rattle.printing.specs.Hexadecimal.{hex_text};

use std::fmt;

// Bytes, as two hexadecimal digits each.
#[derive(Clone, Copy)]
pub struct Hex<'a>(pub &'a [u8]);

impl fmt::Display for Hex<'_> {
    ghost output = { λ h. Some (hex_text h.0.now) };

    fn fmt<W: fmt::Write>(&self, f: &mut fmt::Formatter<W>) -> fmt::Result {
        for &b in self.0 {
            write!(f, "{b:02x}")?;
        }
        Ok(())
    }
}
