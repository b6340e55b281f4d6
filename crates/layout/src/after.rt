// Fields behind a reading that ended in plain numbers, as C has them: its outcome, of any code, is handed on as it is.
ghost use Rattle.std.specs.Prelude.{◌≡◌, ◌+◌, ◌*◌, ◌≤◌, length, IfOk};
ghost use Rattle.reading.specs.Script.{number, octets, word};
ghost use Rattle.reading.specs.Cursor.{read_item};
ghost use Rattle.reading.specs.Layout.{addr, protocol, ethernet, words};
ghost use Rattle.reading.proofs.Fields.{field_out, fields_out};
ghost use Rattle.reading.proofs.Words.{numbers};
ghost use Rattle.xdr.specs.Shown.{Inside, after_on, after_out, an_address};
ghost use Rattle.layout.specs.Shown.{mode_of};

use crate::field;
use crate::field::Mode;
use xdr::{Address, Cursor, Outcome};

// What was read, and the cursor behind it; or an outcome that reads no further.
pub type ReadAfter<T> = Result<(T, Cursor), Outcome>;

// A row of n words, by where it begins.
pub fn words(p: Result<Cursor, Outcome>, s: &[u8], n: u32) -> ReadAfter<usize>
    requires { IfOk p (λ c. Inside s.now c) }
    ensures numbers { after_out (numbers n s.now) result ≡ after_on (fields_out (words n) s.now) p }
    ensures there { IfOk result (λ r. r.0 + 4 * n ≤ length s.now) }
{
    let c = p?;
    let d = c.read_words(s, n)?;
    Ok((c.at, d))
}

pub fn word(p: Result<Cursor, Outcome>, s: &[u8]) -> ReadAfter<u32>
    requires { IfOk p (λ c. Inside s.now c) }
    ensures { after_out number result ≡ after_on (read_item word s.now) p }
{
    let c = p?;
    Ok(c.read_u32(s)?)
}

pub fn address(p: Result<Cursor, Outcome>, s: &[u8]) -> ReadAfter<Address>
    requires { IfOk p (λ c. Inside s.now c) }
    ensures { after_out an_address result ≡ after_on (field_out addr s.now) p }
{
    let c = p?;
    Ok(c.parse_address(s)?)
}

pub fn six(p: Result<Cursor, Outcome>, s: &[u8], mode: Mode) -> ReadAfter<[u8; 6]>
    requires { IfOk p (λ c. Inside s.now c) }
    ensures { after_out octets result ≡ after_on (field_out (ethernet (mode_of mode)) s.now) p }
{
    let c = p?;
    Ok(field::six(c, s, mode)?)
}

pub fn protocol(p: Result<Cursor, Outcome>, s: &[u8]) -> ReadAfter<u32>
    requires { IfOk p (λ c. Inside s.now c) }
    ensures { after_out number result ≡ after_on (field_out protocol s.now) p }
{
    let c = p?;
    Ok(field::protocol(c, s)?)
}
