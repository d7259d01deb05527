// What reading a text answers, in the words of the table.
use kinds::Total;
use reading::read_trace;
use refusals::FileFault;
use std::alloc::{AllocError, Global};

// The first entry of a list before it is read into; each further one is by one larger.
const FIRST_MARK: i64 = 7001;

fn marked_total<K: Total>(mark: i64) -> K {
    let first = K::zero().replace(1, mark).unwrap_or(K::zero());
    first.replace(2, mark).unwrap_or(first)
}

fn marked_list<K: Total>(heap: Global, room: usize) -> Result<Vec<K>, AllocError> {
    let mut totals = Vec::new(heap);
    for mark in (FIRST_MARK..).take(room) {
        totals.push(marked_total::<K>(mark))?;
    }
    Ok(totals)
}

// Whether every entry past the first so many is as it was.
fn is_left<K: Total>(totals: &[K], kept: usize) -> bool {
    totals
        .iter()
        .zip(FIRST_MARK..)
        .skip(kept)
        .all(|(total, mark)| *total == marked_total(mark))
}

fn put_total<K: Total>(heap: Global, answer: &mut String, total: K) -> Result<(), AllocError> {
    let first = total.column(1).unwrap_or(0);
    let shown = match total.column(2) {
        Some(second) => format!(in heap; " {first}/{second}")?,
        None => format!(in heap; " {first}")?,
    };
    answer.push_str(shown.as_str())
}

// The days and their totals, of more than four days only the last.
fn accepted<K: Total>(heap: Global, totals: &[K], days: usize) -> Result<String, AllocError> {
    let mut answer = format!(in heap; "{days} days")?;
    let passed = if days <= 4 { 0 } else { days - 1 };
    for total in totals.iter().take(days).skip(passed) {
        put_total(heap, &mut answer, *total)?;
    }
    Ok(answer)
}

// The number, the line and the byte.
fn refused(heap: Global, fault: FileFault) -> Result<String, AllocError> {
    let number = fault.number();
    let place = fault.place();
    let line = place.line;
    let byte = place.byte;
    format!(in heap; "{number} {line} {byte}")
}

// The answer of reading into a marked list, and whether every entry that is to stay did.
fn read_marked<K: Total>(text: &[u8], totals: &mut [K]) -> (Result<usize, FileFault>, bool) {
    let read = read_trace(text, totals);
    let left = is_left(totals, read.unwrap_or(0));
    (read, left)
}

// What reading into a list of so many entries answers, with `changed` where an entry did that is to
// stay.
pub fn answer<K: Total>(heap: Global, room: usize, text: &[u8]) -> Result<String, AllocError> {
    let mut totals = marked_list::<K>(heap, room)?;
    let (read, left) = read_marked(text, totals.as_mut_slice());
    let mut answer = match read {
        Ok(days) => accepted(heap, totals.as_slice(), days)?,
        Err(fault) => refused(heap, fault)?,
    };
    if !left {
        answer.push_str(" changed")?;
    }
    Ok(answer)
}

// The same as a number: that of the refusal, 0 where the text is accepted, 15 where an entry changed.
pub fn answer_number<K: Total>(heap: Global, room: usize, text: &[u8]) -> Result<u8, AllocError> {
    let mut totals = marked_list::<K>(heap, room)?;
    match read_marked(text, totals.as_mut_slice()) {
        (_, false) => Ok(15),
        (Ok(_), true) => Ok(0),
        (Err(fault), true) => Ok(fault.number()),
    }
}
