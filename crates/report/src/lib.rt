// The report on a text: its record's pulses, or why it was refused, as a text again.
#![tactic(auto)]

mod report;
mod sheet_text;
mod worked;

pub use report::{MOST_REPORT_BYTES, report_on, reports_fit};
pub use sheet_text::write_pulses;
pub use worked::worked_list_holds;
