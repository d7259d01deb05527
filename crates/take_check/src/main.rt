// Runs take against the transform done window by window, in the plainest way, on a table of records.
#![tactic(auto)]

mod records;
mod windows;

use kinds::{Cents, Total};
use records::record;
use sheets::{Sheet, WorkEntry};
use shelves::{Row, RowShelf};
use std::alloc::{AllocError, Global};
use windows::{Pulse, pulses};

const RECORDS: usize = 160;

// The pulses that take puts, or nothing where it gives no answer.
fn taken(heap: Global, record: &[i64]) -> Result<Option<Vec<Pulse>>, AllocError> {
    let blank = Row {
        first: 0,
        width: 0,
        mark: 2,
        amount: Cents::new(0),
    };
    let totals: Vec<Cents> = record.iter().map(|value| Cents::new(*value)).collect(heap)?;
    let mut rows = vec![in heap; blank; record.len()]?;
    let mut work = vec![in heap; WorkEntry::new(); record.len() + 2]?;
    let mut sheet: Sheet<Cents, RowShelf<Cents>> = Sheet::new(RowShelf::over(&mut rows));
    let Ok(count) = sheet.take(&totals, &mut work) else {
        return Ok(None);
    };
    drop(sheet);
    let list: Vec<Pulse> = rows.iter().take(count).map(pulse_of).collect(heap)?;
    Ok(Some(list))
}

fn pulse_of(row: &Row<Cents>) -> Pulse {
    Pulse {
        first: usize::from(row.first),
        width: usize::from(row.width),
        amount: row.amount.column(1).unwrap_or(0),
    }
}

fn run(rt: &(impl Print + AllocGlobal)) -> anyhow::Result<()> {
    let heap = rt.alloc();
    let mut wrong = 0u32;
    for number in 0..RECORDS {
        let record = record(heap, number)?;
        let days = record.len();
        let expected = pulses(heap, &record)?;
        let count = expected.len();
        match taken(heap, &record)? {
            Some(list) if list == expected => {
                println!(rt; "record {number}: {days} days, {count} pulses")?;
            }
            Some(_) => {
                wrong = wrong.saturating_add(1);
                println!(rt; "record {number}: take differs")?;
            }
            None => {
                wrong = wrong.saturating_add(1);
                println!(rt; "record {number}: take gives no answer")?;
            }
        }
    }
    println!(rt; "{wrong} of {RECORDS} differ")?;
    Ok(())
}

fn main(rt: HostRuntime) -> anyhow::Result<()> {
    run(&rt)
}
