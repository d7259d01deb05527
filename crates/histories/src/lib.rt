// Histories: a new sheet, changed by a list of calls.
#![tactic(auto)]

mod steps;

pub use steps::{Step, sheet_after};
