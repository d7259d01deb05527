// The one table of refusals, and what is wrong with a text.
#![tactic(auto)]

mod fault;
mod refusal;

pub use fault::{FaultAtLine, FieldFault, FileFault, LineFault, faults_told_apart};
pub use refusal::{Place, Refusal};
