// Runs take over cents for a program in Rust, which compares what it lists and measures its time.
#![tactic(auto)]

mod lot;

use kinds::{Cents, MOST_DAYS, Total};
use lot::take_lot;
use sheets::WorkEntry;
use shelves::Row;

// The most totals of one call, all its records together.
const MOST_TOTALS: usize = 16_000;

// What the search works in: two entries more than days.
const WORK_ENTRIES: usize = MOST_DAYS + 2;

// The answer where no number of pulses can be given. Stays a number: the C interface has no Option.
const NONE: usize = 1_000_000;

// Takes each record of a lot, records of `days` days that stand one after the other, as often as
// `rounds` says. Answers the number of pulses of the last record and writes first day, width and
// amount of each to `listed`, as far as there is room.
#[unsafe(no_mangle)]
pub extern "C" fn bench_take(lot: &[i64], days: usize, rounds: usize, listed: &mut [i64]) -> usize {
    if days == 0 || days > MOST_DAYS || lot.len() > MOST_TOTALS {
        return NONE;
    }
    let mut totals = [Cents::new(0); MOST_TOTALS];
    fill(&mut totals, lot);
    let mut work = [WorkEntry::new(); WORK_ENTRIES];
    let mut rows = [blank(); MOST_DAYS];
    let work = &mut work[..days + 2];
    let rows = &mut rows[..days];
    match take_lot(&totals[..lot.len()], days, rounds, work, rows) {
        Ok(count) => {
            list(&rows[..], count, listed);
            count
        }
        Err(_) => NONE,
    }
}

fn blank() -> Row<Cents> {
    Row {
        first: 0,
        width: 0,
        mark: 2,
        amount: Cents::new(0),
    }
}

fn fill(totals: &mut [Cents], numbers: &[i64]) {
    for (total, number) in totals.iter_mut().zip(numbers) {
        *total = Cents::new(*number);
    }
}

// Writes three numbers a row.
fn list(rows: &[Row<Cents>], count: usize, listed: &mut [i64]) {
    let (places, _) = listed.as_chunks_mut::<3>();
    for (row, place) in rows.iter().take(count).zip(places) {
        let amount = row.amount.column(1).unwrap_or(0);
        *place = [i64::from(row.first), i64::from(row.width), amount];
    }
}
