// Tests of the kinds at their edges.
#![tactic(auto)]

#[cfg(test)]
mod pairs;
#[cfg(test)]
mod wholes;

#[cfg(test)]
use kinds::{Total, name_code};

// The code of the name of a column of the total's kind.
#[cfg(test)]
fn name_of<K: Total>(_total: K, number: u8) -> u8 {
    name_code::<K>(number)
}
