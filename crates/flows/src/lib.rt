// The flow records of sFlow version 5: records, aggregations and PDUs in their cycle, read in a first pass and written as descriptors in a second.
#![tactic(auto)]

pub mod put;
pub mod scan;
pub mod scan_ahead;

// The depth of the deepest record.
pub const MAX_DEPTH: usize = 8;

// The first depth at which no record may begin.
const TOO_DEEP: usize = MAX_DEPTH + 1;
