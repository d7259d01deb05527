// A table of records to write, a text like any other: under each name the figures of a row. A record
// has so many days of ones, but from the day `odd` on `value` in one column, and `room` bytes to be
// written into. What is due is the number of the refusal with its day, or 0 and the bytes.
use figures::read_figure;
use kinds::{Cents, Mobile, Pair, Paper, Pieces, Total};
use reading::{field, read_trace};
use refusals::FileFault;
use std::alloc::{AllocError, Global};
use std::io::Write;
use writing::write_trace;

// A kind with two equal column names.
type Twins = Pair<Cents, Cents>;

const FILLER: u8 = b'.';

#[derive(Clone, Copy)]
struct Case {
    days: usize,
    odd: usize,
    column: u8,
    value: i64,
    room: usize,
}

// The first line of some bytes, and what follows its line feed.
fn split_line(bytes: &[u8]) -> (&[u8], &[u8]) {
    match bytes.iter().position(|byte| *byte == b'\n') {
        Some(end) => (&bytes[..end], &bytes[end + 1..]),
        None => (bytes, &[]),
    }
}

fn figure_under(names: &[u8], row: &[u8], name: &[u8]) -> i64 {
    field(names, row, name)
        .and_then(|bytes| read_figure(bytes))
        .unwrap_or(-1)
}

fn count_under(names: &[u8], row: &[u8], name: &[u8]) -> usize {
    usize::try_from(figure_under(names, row, name)).unwrap_or(0)
}

fn case_of(names: &[u8], row: &[u8]) -> Case {
    Case {
        days: count_under(names, row, b"days"),
        odd: count_under(names, row, b"odd"),
        column: u8::try_from(figure_under(names, row, b"column")).unwrap_or(0),
        value: figure_under(names, row, b"value"),
        room: count_under(names, row, b"room"),
    }
}

fn record<K: Total>(heap: Global, case: Case) -> Result<Vec<K>, AllocError> {
    let cent = K::zero().replace(1, 1).unwrap_or(K::zero());
    let one = cent.replace(2, 1).unwrap_or(cent);
    let odd = one.replace(case.column, case.value).unwrap_or(one);
    let mut totals = Vec::new(heap);
    for day in 1..=case.days {
        let is_odd = case.odd > 0 && day >= case.odd;
        totals.push(if is_odd { odd } else { one })?;
    }
    Ok(totals)
}

// Whether all those bytes, and none before, are as they were.
fn is_left(out: &[u8], written: usize) -> bool {
    out.iter()
        .enumerate()
        .all(|(i, byte)| (*byte == FILLER) == (i >= written))
}

// Whether the text reads as these totals.
fn reads_back<K: Total>(heap: Global, text: &[u8], totals: &[K]) -> Result<bool, AllocError> {
    let mut back = vec![in heap; K::zero(); totals.len()]?;
    let days = read_trace(text, back.as_mut_slice()).unwrap_or(0);
    Ok(days == totals.len() && back.as_slice() == totals)
}

fn written<K: Total>(totals: &[K], out: &mut [u8]) -> Result<usize, FileFault> {
    write_trace(totals, out).map_err(FileFault::Writing)
}

// What writing answers, with `changed` where a byte did that is to stay, and `lost` where the text
// does not read back.
fn answer<K: Total>(heap: Global, case: Case) -> Result<String, AllocError> {
    let totals = record::<K>(heap, case)?;
    let mut out = vec![in heap; FILLER; case.room]?;
    let result = written(totals.as_slice(), out.as_mut_slice());
    let bytes = result.unwrap_or(0);
    let mut answer = match result {
        Ok(_) => format!(in heap; "0,0,{bytes}")?,
        Err(fault) => refused(heap, fault)?,
    };
    if !is_left(out.as_slice(), bytes) {
        answer.push_str(" changed")?;
    }
    let text = out.as_slice().get(0..bytes).unwrap_or(b"");
    if result.is_ok() && !reads_back(heap, text, totals.as_slice())? {
        answer.push_str(" lost")?;
    }
    Ok(answer)
}

// A refusal of writing has its number and its day, and no place.
fn refused(heap: Global, fault: FileFault) -> Result<String, AllocError> {
    let number = fault.number();
    let day = fault.refusal().day();
    let place = fault.place();
    if place.line == 0 && place.byte == 0 {
        format!(in heap; "{number},{day},0")
    } else {
        format!(in heap; "{number},{day},0 placed")
    }
}

fn answer_of(heap: Global, kind: &[u8], case: Case) -> Result<String, AllocError> {
    match kind {
        b"paper" => answer::<Paper>(heap, case),
        b"mobile" => answer::<Mobile>(heap, case),
        b"twins" => answer::<Twins>(heap, case),
        _ => format!(in heap; "no kind"),
    }
}

fn try_row(rt: &HostRuntime, names: &[u8], row: &[u8]) -> anyhow::Result<()> {
    let heap = rt.alloc();
    let kind = field(names, row, b"kind").unwrap_or(b"");
    let answer = answer_of(heap, kind, case_of(names, row))?;
    let number = figure_under(names, row, b"number");
    let day = figure_under(names, row, b"day");
    let bytes = figure_under(names, row, b"bytes");
    let due = format!(in heap; "{number},{day},{bytes}")?;
    rt.stdout()
        .write_all(field(names, row, b"label").unwrap_or(b""))?;
    let right = answer.as_bytes() == due.as_bytes();
    let verdict = if right { "" } else { " WRONG" };
    println!(rt; ": {answer}{verdict}")?;
    Ok(())
}

// Tries every row of the table.
pub fn try_table(rt: &HostRuntime, table: &[u8]) -> anyhow::Result<()> {
    let (names, rows) = split_line(table);
    for row in rows.split(|byte| *byte == b'\n') {
        if !row.is_empty() {
            try_row(rt, names, row)?;
        }
    }
    Ok(())
}
