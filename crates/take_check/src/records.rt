// A table of records, made by rule: ties, plateaus, alternating signs, zeros at the ends, one day,
// 1,000 days.
use std::alloc::{AllocError, Global};

// A next number that looks like chance.
fn shuffled(seed: u32) -> u32 {
    seed.wrapping_mul(1_664_525).wrapping_add(1_013_904_223)
}

// How many days the record of a number has.
fn days_of(number: usize) -> usize {
    match number {
        0..=7 => number,
        8..=99 => 5 + number % 23,
        100..=157 => 20 + number % 97,
        158 => 400,
        _ => 1000,
    }
}

// The total of a day: five rules, in turn by the record's number.
fn total_of(number: usize, day: usize, chance: u32) -> i64 {
    let drawn = i64::from(chance / 65_536 % 19);
    let place = (day % 1000) as i64;
    match number % 5 {
        0 => drawn - 9,
        1 => drawn / 5 - 1,
        2 => { if day % 2 == 0 { drawn } else { -drawn } }
        3 => { if day % 7 < 3 { 0 } else { drawn - 6 } }
        _ => place.saturating_add(drawn.saturating_mul(place % 4)),
    }
}

pub fn record(heap: Global, number: usize) -> Result<Vec<i64>, AllocError> {
    let mut totals = Vec::new(heap);
    let mut chance = 7u32.wrapping_add((number % 1000) as u32);
    for day in 0..days_of(number) {
        chance = shuffled(chance);
        totals.push(total_of(number, day, chance))?;
    }
    Ok(totals)
}
