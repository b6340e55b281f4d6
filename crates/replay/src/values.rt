// How the fields of a descriptor are printed: the outcome of their reading, and each value behind a space.
use layout::record::Reading;
use numbers::{DataSource, Interface};
use printing::bytes::Hex;
use samples::kinds::{DataSourceExpanded, InterfaceExpanded};
use std::io;
use xdr::{Address, Outcome, Span};

// A field, or the fields of a record.
pub trait Shown: Copy {
    fn show(self, rt: &impl Print) -> io::Result<()>;
}

// Fields of a record by their names, one behind another. Each record has an impl of its own: `rt ci` takes none that a macro here writes.
macro_rules! show_each {
    ($rt:expr, $record:expr; $($field:ident),+) => {{
        $($record.$field.show($rt)?;)+
        Ok(())
    }};
}

pub(crate) use show_each;

// A line each, for two numbers here and two words of two parts below: a trait that they share, for one impl, would be no shorter.
impl Shown for u32 {
    fn show(self, rt: &impl Print) -> io::Result<()> {
        print!(rt; " {self}")
    }
}

impl Shown for u64 {
    fn show(self, rt: &impl Print) -> io::Result<()> {
        print!(rt; " {self}")
    }
}

// A start and a count.
impl Shown for Span {
    fn show(self, rt: &impl Print) -> io::Result<()> {
        let Span { start, count } = self;
        print!(rt; " {start}+{count}")
    }
}

impl<const N: usize> Shown for [u8; N] {
    fn show(self, rt: &impl Print) -> io::Result<()> {
        print!(rt; " {}", Hex(&self))
    }
}

// A type, and sixteen bytes in hexadecimal.
impl Shown for Address {
    fn show(self, rt: &impl Print) -> io::Result<()> {
        let Address { kind, bytes } = self;
        print!(rt; " {kind}/{}", Hex(&bytes))
    }
}

impl Shown for DataSource {
    fn show(self, rt: &impl Print) -> io::Result<()> {
        self.0.show(rt)
    }
}

impl Shown for Interface {
    fn show(self, rt: &impl Print) -> io::Result<()> {
        self.0.show(rt)
    }
}

impl Shown for DataSourceExpanded {
    fn show(self, rt: &impl Print) -> io::Result<()> {
        show_each!(rt, self; source_id_type, source_id_index)
    }
}

impl Shown for InterfaceExpanded {
    fn show(self, rt: &impl Print) -> io::Result<()> {
        show_each!(rt, self; format, value)
    }
}

// A new descriptor: the code, the position and the steps of its field reading, and the fields.
pub fn reading<T: Shown>(rt: &impl Print, r: Reading<T>) -> io::Result<()> {
    let Outcome { code, at, steps } = r.outcome;
    print!(rt; "; {code},{at},{steps}")?;
    r.fields.show(rt)
}
