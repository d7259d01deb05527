// Reading: fields, lines and trace texts.
#![tactic(auto)]

mod fields;
mod line;
mod names;
mod trace;
mod walk;

pub use fields::{COMMA, LINE_FEED, field};
pub use trace::{read_trace, reading_law};
