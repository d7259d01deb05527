// Tests of sheets on worked records.
#![tactic(auto)]

#[cfg(test)]
mod worked;
