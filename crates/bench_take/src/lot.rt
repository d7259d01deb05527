// The part that is measured.
ghost use Rattle.std.specs.Prelude.{◌<◌};

use kinds::Cents;
use sheets::{Sheet, Stop, WorkEntry};
use shelves::{Row, RowShelf};

// Takes each record of the lot, round by round. Answers the number of pulses of the last one, or why
// a record was stopped.
pub(crate) fn take_lot(
    lot: &[Cents],
    days: usize,
    rounds: usize,
    work: &mut [WorkEntry<Cents>],
    rows: &mut [Row<Cents>],
) -> Result<usize, Stop>
    requires { 0 < days }
{
    let mut sheet: Sheet<Cents, RowShelf<Cents>> = Sheet::new(RowShelf::over(rows));
    for _ in 0..rounds {
        take_round(lot, days, &mut sheet, work)?;
    }
    Ok(sheet.pulses())
}

fn take_round(
    lot: &[Cents],
    days: usize,
    sheet: &mut Sheet<Cents, RowShelf<Cents>>,
    work: &mut [WorkEntry<Cents>],
) -> Result<(), Stop>
    requires { 0 < days }
{
    for record in lot.chunks_exact(days) {
        sheet.take(record, work)?;
    }
    Ok(())
}
