// What a listing program is asked on its command line: the memo's mode, or with `--base` the base mode.
use layout::field::Mode;
use std::env::{Env, FillError};
use std::io;

// Whether there is no argument of this number, counted from the program's own name.
fn is_absent(rt: &impl Env, i: usize) -> bool {
    matches!(rt.arg(i, &mut []), Err(FillError::NotPresent))
}

// The mode that is asked for. None where anything else is, which is told on a line of its own.
pub fn arguments(rt: &(impl Env + Print)) -> io::Result<Option<Mode>> {
    let mut word = [0u8; 8];
    match rt.arg(1, &mut word) {
        Err(FillError::NotPresent) => Ok(Some(Mode::Memo)),
        Ok(n) if &word[..n] == b"--base".as_slice() && is_absent(rt, 2) => Ok(Some(Mode::Base)),
        _ => {
            println!(rt; "argument=unknown")?;
            Ok(None)
        }
    }
}
