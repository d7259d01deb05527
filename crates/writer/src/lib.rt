// The writer of texts, and what may stand in their lines.
#![tactic(auto)]

mod bytes;
mod digits;
mod value;
mod writer;

pub use value::{Shown, Value, word_of};
pub use writer::{Ended, Lines, Naming, Short, room_behind};
