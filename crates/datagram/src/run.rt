// A run of datagrams end to end, for any input and any store, as `parse_datagrams` reads them.
ghost use Rattle.std.specs.Prelude.{◌≡◌, ◌≤◌, length};
ghost use Rattle.reading.specs.Sizes.{longest_input};
ghost use Rattle.reading.specs.Cursor.{follow};
ghost use Rattle.reading.specs.Layout.{base as base_mode, datagram};
ghost use Rattle.reading.specs.Answer.{from, nobody, rows, run};
ghost use Rattle.reading.proofs.Counts.{counted};
ghost use Rattle.reading.proofs.Places.{ranges_of, end_of};
ghost use Rattle.reading.proofs.Runs.{run_from};
ghost use Rattle.reading.proofs.Stored.{write};
ghost use Rattle.layout.specs.Shown.{mode_of, scanned_out};
ghost use Rattle.store.specs.Written.{Ready, written, placed};
ghost use Rattle.datagram.specs.Shown.{root, pen_at, ran};

use crate::decode::{Answer, START};
use crate::one::{put_datagram, scan_datagram};
use layout::field::Mode;
use layout::frames::Scanned;
use store::{DESCRIPTOR_WORDS, Written, index_at};
use xdr::{Cursor, MAX_INPUT_SIZE, Reason};

// The first pass. Code 2 ends the run where the datagram that it stops began.
fn scan_run(s: &[u8], mode: Mode) -> Scanned
    requires { length s.now ≤ longest_input }
    ensures { scanned_out result ≡ counted 0 (run_from (mode_of mode) s.now (from 0)) }
{
    let mut cur = START;
    let mut found = 0;
    // A turn takes a datagram, whose length only its reading tells, so no range counts them.
    while cur.at < s.len() {
        match scan_datagram(s, cur, mode, found) {
            Ok((k, d)) => {
                cur = d;
                found = k;
            }
            Err(x) => {
                return match x.reason {
                    Reason::Cut => Ok((
                        found,
                        Cursor {
                            at: cur.at,
                            steps: x.steps,
                        },
                    )),
                    _ => Err(x),
                };
            }
        }
    }
    Ok((found, cur))
}

// One datagram of a run, whose first descriptor begins at a word: the rest of the store is lent to its writer.
fn put_next(s: &[u8], at: usize, store: &mut [u32], word: usize) -> Written
    requires at_in_bounds { at ≤ length s.now }
    requires ready { Ready s.now store.old (pen_at word) (follow (datagram base_mode) s.now (from at)) }
    ensures { written result store.new ≡ placed (pen_at word) (follow (datagram base_mode) s.now (from at)) store.old }
{
    let w = put_datagram(s, at, &mut store[word..], index_at(0, word));
    Written {
        at: w.at,
        word: word + w.word,
    }
}

// The second pass, over the bytes up to where the first one ended: there the run is the same in each mode.
fn put_run(s: &[u8], store: &mut [u32])
    requires ready { Ready s.now store.old (root 0) (run_from base_mode s.now (from 0)) }
    requires s_len { length s.now ≡ end_of (run_from base_mode s.now (from 0)) }
    ensures { store.new ≡ write store.old 0 (rows 0 nobody (ranges_of (run_from base_mode s.now (from 0)))) }
{
    let mut cur = 0;
    let mut word = 0;
    // The same turns as the first pass takes.
    while cur < s.len() {
        let w = put_next(s, cur, &mut *store, word);
        cur = w.at;
        word = w.word;
    }
}

// The store is written where code 0 is answered, and only then: the descriptors from its first word on.
pub fn decode_run(s: &[u8], store: &mut [u32], mode: Mode) -> Answer
    ensures { ran result store.new ≡ run (mode_of mode) s.now store.old }
{
    if MAX_INPUT_SIZE < s.len() {
        return START.refusal(Reason::InputTooLong).into();
    }
    match scan_run(s, mode) {
        Err(x) => x.into(),
        Ok((k, e)) => {
            if store.len() / DESCRIPTOR_WORDS < k {
                return Answer::no_room(e, k);
            }
            put_run(&s[..e.at], store);
            Answer {
                code: 0,
                at: e.at,
                steps: e.steps,
                needed: k,
            }
        }
    }
}
