// The transform by windows: its definition stands in specs/, and here are the theorems about it,
// each on the contract of a function.
#![tactic(auto)]

mod examples;
mod theory;

pub use examples::worked_examples_hold;
pub use theory::{
    at_most_as_many_pulses_as_days, different_choices_differ, pulses_have_days_of_their_own,
    pulses_sum_to_the_record, runs_make_the_smooths, smooths_are_smooth, sums_stay_in_range,
    swings_balance, wider_pulses_sum_to_the_smooth, widths_and_amounts, windows_level_runs,
};
