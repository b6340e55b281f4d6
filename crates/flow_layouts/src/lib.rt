// The layouts of flow records that docs/RULES.md opens: a reader for each, and one table by which a record's payload is passed.
#![tactic(auto)]

pub mod data;
pub mod extended;
pub mod mpls;
pub mod parts;
pub mod sampled;
pub mod wireless;
