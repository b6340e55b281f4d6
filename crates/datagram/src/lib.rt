// Datagrams, one or a run of them, read into a store of descriptors that the caller lends.
#![tactic(auto)]

pub mod decode;
pub mod header;
pub mod one;
pub mod run;
