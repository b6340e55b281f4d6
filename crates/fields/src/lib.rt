// What a field reading asks of a descriptor first; and what its fields lead to: the payload, a list's words, an AS path's segments.
#![tactic(auto)]

pub mod ask;
pub mod descriptor;
pub mod lists;
pub mod payload;
