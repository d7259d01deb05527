// The names line of a trace text.
ghost use Rattle.std.specs.Prelude.{◌≡◌, ℕ, ◌+◌, ◌^◌, ◌<◌, length};
ghost use Rattle.reading.specs.Parts.{fields};
ghost use Rattle.reading.specs.Traces.{among, all_among, trace_names, bad_name};
ghost use Rattle.refusals.specs.Faults.{at_name};

use crate::fields::{find_under, start_under};
use crate::walk::Fields;
use figures::{Heading, first_column, second_column};
use kinds::Total;
use refusals::FieldFault;

// Whether it is a name of the kind's trace texts.
fn known<K: Total>(name: &[u8]) -> bool
    ensures { result ≡ among name.now (trace_names K.Total.kind) }
{
    name == Heading::Day.letters()
        || name == first_column::<K>().letters()
        || second_column::<K>().is_some_and(|second| name == second.letters())
}

// That each name of the line is known and not repeated, or else the leftmost that is not so.
pub(crate) fn check_names<K: Total>(names: &[u8]) -> Result<(), FieldFault>
    requires { length names.now < 2 ^ 63 }
    ensures { result ≡ at_name (bad_name (trace_names K.Total.kind) (fields names.now) 0 (fields names.now)) }
{
    for (byte, name) in Fields::of(names) {
        if !known::<K>(name) || start_under(0, names, names, name) != byte {
            return Err(FieldFault::BadName { byte });
        }
    }
    Ok(())
}

fn named(names: &[u8], name: &[u8]) -> bool
    ensures { result ≡ among name.now (fields names.now) }
{
    find_under(names, names, name).is_some()
}

// Whether each name of the kind's trace texts stands in the line.
pub(crate) fn all_named<K: Total>(names: &[u8]) -> bool
    ensures { result ≡ all_among (trace_names K.Total.kind) (fields names.now) }
{
    named(names, Heading::Day.letters())
        && named(names, first_column::<K>().letters())
        && second_column::<K>().is_none_or(|second| named(names, second.letters()))
}
