// Sheets: the pulses of a record kept on a shelf, with the calls and the questions of a sheet.
#![tactic(auto)]

mod calls;
mod marks;
mod questions;
mod sheet;
mod standing;

pub use questions::ListedPulse;
pub use sheet::{Sheet, Stop};
pub use splitting::WorkEntry;
