// The samples of a datagram: their fields, and the records that they hold.
#![tactic(auto)]

pub mod heads;
pub mod kinds;
pub mod put;
pub mod scan;
