// The transform as it is defined: windows of n + 1 days, zero outside the record.
use std::alloc::{AllocError, Global};
use std::iter;

#[derive(Clone, Copy, PartialEq, Eq)]
pub struct Pulse {
    pub first: usize,
    pub width: usize,
    pub amount: i64,
}

fn lowest(window: &[i64]) -> i64 {
    window.iter().copied().min().unwrap_or(0)
}

fn highest(window: &[i64]) -> i64 {
    window.iter().copied().max().unwrap_or(0)
}

// What is picked of each window of n + 1 values.
fn of_windows<F: Fn(&[i64]) -> i64>(
    heap: Global,
    values: &[i64],
    n: usize,
    pick: F,
) -> Result<Vec<i64>, AllocError>
    requires { F.IsAlwaysCallable pick }
{
    let mut out = Vec::new(heap);
    for window in values.windows(n.saturating_add(1)) {
        out.push(pick(window))?;
    }
    Ok(out)
}

// The record with n days of zero on either side.
fn padded(heap: Global, record: &[i64], n: usize) -> Result<Vec<i64>, AllocError> {
    let mut days = vec![in heap; 0; n]?;
    days.extend_from_slice(record)?;
    days.extend(iter::repeat_n(0, n))?;
    Ok(days)
}

// L of width n.
fn lowered(heap: Global, record: &[i64], n: usize) -> Result<Vec<i64>, AllocError> {
    let lows = of_windows(heap, &padded(heap, record, n)?, n, lowest)?;
    of_windows(heap, &lows, n, highest)
}

// U of width n.
fn raised(heap: Global, record: &[i64], n: usize) -> Result<Vec<i64>, AllocError> {
    let highs = of_windows(heap, &padded(heap, record, n)?, n, highest)?;
    of_windows(heap, &highs, n, lowest)
}

// The longest unbroken stretches of changed days, added to the list.
fn add_changes(list: &mut Vec<Pulse>, before: &[i64], after: &[i64]) -> Result<(), AllocError> {
    let mut open: Option<Pulse> = None;
    for (i, (b, a)) in before.iter().zip(after).enumerate() {
        if *b == *a {
            if let Some(pulse) = open.take() {
                list.push(pulse)?;
            }
        } else if let Some(pulse) = &mut open {
            pulse.width = pulse.width.saturating_add(1);
        } else {
            open = Some(Pulse {
                first: i.saturating_add(1),
                width: 1,
                amount: b.saturating_sub(*a),
            });
        }
    }
    if let Some(pulse) = open {
        list.push(pulse)?;
    }
    Ok(())
}

// The list of a record's pulses.
pub fn pulses(heap: Global, record: &[i64]) -> Result<Vec<Pulse>, AllocError> {
    let mut list = Vec::new(heap);
    let mut smooth = record.to_vec(heap)?;
    for n in 1..=record.len() {
        let lowered = lowered(heap, &smooth, n)?;
        add_changes(&mut list, &smooth, &lowered)?;
        let raised = raised(heap, &lowered, n)?;
        add_changes(&mut list, &lowered, &raised)?;
        smooth = raised;
    }
    Ok(list)
}
