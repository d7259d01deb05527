// What the pulses marked in add up to.
ghost use Rattle.std.specs.Prelude.{◌≡◌, ◌+◌, ◌≤◌, ◌&&◌, Some, nat_le, nat_lt};
ghost use Rattle.kinds.specs.Columns.{plus};
ghost use Rattle.kinds.specs.Kinds.{Gives};
ghost use Rattle.transform.specs.Pulses.{standing as stood};
ghost use Rattle.sheets.specs.Takes.{state_of};
ghost use Rattle.sheets.specs.Standing.{stands_in, standing_total};
ghost use Rattle.sheets.specs.Questions.{ComesOut};
ghost use Rattle.sheets.specs.Inside.{entry_of};

use crate::marks::{HeldRow, held_row};
use crate::sheet::{Sheet, Stop};
use kinds::Total;
use shelves::{Mark, Shelf};

// Whether a row's pulse covers a day.
fn covered<K: Total>(row: HeldRow<K>, day: usize) -> bool
    ensures { result ≡ nat_le row.first day && nat_lt day (row.first + row.width) }
{
    let first = usize::from(row.first);
    (first..first + usize::from(row.width)).contains(&day)
}

// The sum with what the row adds to it on a day: its amount, if it is marked in and covers the day.
fn with_row<K: Total>(sum: K, row: HeldRow<K>, day: usize) -> Option<K>
    ensures { Gives K.kind K.columns (plus K.kind.arity (K.columns sum) (stood K.kind (stands_in K.kind (Some (entry_of K.kind K.columns row))) day)) result }
{
    if row.mark == Mark::In && covered(row, day) {
        sum.sum(row.amount)
    } else {
        Some(sum)
    }
}

// What the pulses of a sheet that are marked in come to on a day.
pub(crate) fn standing_on<K: Total, S: Shelf<K>>(sheet: &Sheet<K, S>, day: usize) -> Result<K, Stop>
    ensures { ComesOut K.kind K.columns (state_of S.slots S.outside sheet.now) (standing_total K.kind (state_of S.slots S.outside sheet.now) day) result }
{
    let mut sum = K::zero();
    for slot in 0..sheet.pulses {
        let row = held_row(&sheet.shelf, slot)?;
        sum = with_row(sum, row, day).ok_or(Stop::Unreachable)?;
    }
    Ok(sum)
}
