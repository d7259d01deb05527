// Writing: trace texts, pulse texts and the text of a refusal.
#![tactic(auto)]

mod fields;
mod pulse_text;
mod record_text;

pub use pulse_text::{
    PulseLine, room_behind_pulse, room_behind_pulse_names, write_pulse, write_pulse_names,
    write_refusal,
};
pub use record_text::{texts_agree, write_trace};
