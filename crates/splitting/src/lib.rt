// Splitting: a record split into its pulses by the run method, their rows put on a shelf.
#![tactic(auto)]

mod layout;
mod levelling;
mod limits;
mod record;
mod widths;
mod work;

pub use record::split_record;
pub use work::WorkEntry;
