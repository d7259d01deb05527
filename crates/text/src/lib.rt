// Texts: all that reads and writes them, under one name. Its parts are figures, reading, the writer of
// texts and writing.
#![tactic(auto)]

pub use figures::{Heading, figures_agree, read_figure};
pub use reading::{field, read_trace};
pub use refusals::{FaultAtLine, FieldFault, FileFault, LineFault};
pub use shelves::Mark;
pub use writer::{Ended, Lines, Naming, Short, Value, word_of};
pub use writing::{
    PulseLine, room_behind_pulse, room_behind_pulse_names, texts_agree, write_pulse,
    write_pulse_names, write_refusal, write_trace,
};
