// What the layouts of records and samples are made of: their fields one behind another, lists, and the frames that hold them. A layout is read
// field by field (`field`, `lists`, `record`), or passed with nothing kept of it (`pass`).
#![tactic(auto)]

pub mod after;
pub mod field;
pub mod frames;
pub mod lists;
pub mod pass;
pub mod record;
