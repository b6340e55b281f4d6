// A record: the fields of a layout by their names, as they are read, and as a field reading answers them.
ghost use Rattle.std.specs.Prelude.{◌≡◌, ℕ, List, IfOk, Err};
ghost use Rattle.reading.specs.Script.{Value};
ghost use Rattle.reading.specs.Layout as reading;
ghost use Rattle.reading.specs.Layout.{Field};
ghost use Rattle.reading.specs.Values.{zeros};
ghost use Rattle.reading.proofs.Fields.{fields_out};
ghost use Rattle.xdr.specs.Shown.{Answers, AnswersAfter, Inside, passed_on, place, read_out};
ghost use Rattle.layout.specs.Shown.{mode_of};

use crate::field::Mode;
use xdr::{Cursor, Outcome, Passed, Read, Refusal};

// A struct whose fields are those of a layout.
pub trait Record: Copy {
    // The layout in each mode, and the values of the fields in its order.
    ghost layout: { reading.Mode → List Field };

    ghost values: { Self → List Value };

    // All zero, as it stands beside a refusal. Each impl writes it, since `Default` says nothing of a layout.
    fn zero() -> Self
        ensures { (mode : reading.Mode) → values result ≡ zeros (layout mode) };

    fn read(c: Cursor, s: &[u8], mode: Mode) -> Read<Self>
        requires { Inside s.now c }
        ensures { read_out values result ≡ fields_out (layout (mode_of mode)) s.now (place c) };
}

// The record that is read on from p, whose refusal is handed on.
fn read_on<T: Record>(p: Passed, s: &[u8], mode: Mode) -> Read<T>
    requires { IfOk p (λ c. Inside s.now c) }
    ensures { read_out T.values result ≡ passed_on (fields_out (T.layout (mode_of mode)) s.now) p }
{
    let c = p?;
    T::read(c, s, mode)
}

// What a field reading answers, in the form that C gets: how it ended, and the fields; they are zero on a refusal.
#[repr(C)]
#[derive(Clone, Copy)]
pub struct Reading<T> {
    pub outcome: Outcome,
    pub fields: T,
}

impl<T: Record> Reading<T> {
    // Where no record was read: the fields are zero.
    fn ended(outcome: Outcome) -> Reading<T>
        ensures outcome { result.outcome ≡ outcome }
        ensures zeros { (mode : reading.Mode) → T.values result.fields ≡ zeros (T.layout mode) }
    {
        Reading {
            outcome,
            fields: T::zero(),
        }
    }

    // The record that is read on from p.
    #[tactic(auto, using(crate::proofs::Records::all_refused))]
    pub fn of(p: Passed, s: &[u8], mode: Mode) -> Reading<T>
        requires { IfOk p (λ c. Inside s.now c) }
        ensures { Answers (T.layout (mode_of mode)) s.now p result.outcome (T.values result.fields) }
    {
        match read_on::<T>(p, s, mode) {
            Ok((fields, d)) => Reading {
                outcome: d.accepted(),
                fields,
            },
            Err(x) => Reading::<T>::ended(x.into()),
        }
    }

    // What a refusal answers that is handed on. Apart from `of`, so that each record's is called in one place, and the compiler puts it there: the
    // fields then stand where they are asked for, and are not copied there.
    pub fn refused(x: Refusal) -> Reading<T>
        ensures { (s : List ℕ) (mode : reading.Mode) → Answers (T.layout mode) s (Err x) result.outcome (T.values result.fields) }
    {
        Reading::<T>::ended(x.into())
    }

    // What `of` answers behind a reading that ended in plain numbers, as C has them: its outcome, of any code, is the answer.
    pub fn after(p: Result<Cursor, Outcome>, s: &[u8], mode: Mode) -> Reading<T>
        requires { IfOk p (λ c. Inside s.now c) }
        ensures { AnswersAfter (T.layout (mode_of mode)) s.now p result.outcome (T.values result.fields) }
    {
        match p {
            Ok(c) => Reading::<T>::of(Ok(c), s, mode),
            Err(outcome) => Reading::<T>::ended(outcome),
        }
    }
}
