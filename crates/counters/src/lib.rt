// The layouts of counter records that docs/RULES.md opens, all of them fixed: a reader for each, and one table by which a record's payload is passed.
#![tactic(auto)]

pub mod data;
pub mod polled;
