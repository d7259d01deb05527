// One script on one sheet, of any kind and over any shelf.
use crate::answers::{Answer, Columns, Numbered, Stopped, Totals};
use crate::script::{Command, Script};
use histories::sheet_after;
use kinds::{MOST_DAYS, Total};
use reading::read_trace;
use report::{MOST_REPORT_BYTES, write_pulses};
use sheets::{Sheet, WorkEntry};
use shelves::Shelf;
use std::io::Write;

// How a script came to its end.
#[derive(Clone, Copy, PartialEq, Eq)]
pub enum Ending {
    AllRead,
    MemoryAsked,
}

// A new sheet: the one after no calls. What is promised of a sheet after any list of calls holds of
// it, and each call of the script continues its history.
fn opened<K: Total, S: Shelf<K>>(shelf: S) -> Sheet<K, S> {
    let totals: [K; 0] = [];
    let mut work: [WorkEntry<K>; 0] = [];
    sheet_after(shelf, &[], &totals, &mut work)
}

// Answers the script's lines on a new sheet, up to its end or the question for the memory.
pub fn play<K: Total, S: Shelf<K> + Drop>(
    rt: &HostRuntime,
    script: Script<'_>,
    shelf: S,
) -> anyhow::Result<Ending> {
    let mut sheet = opened(shelf);
    for command in script {
        let Ok(command) = command else {
            println!(rt; "not a call")?;
            continue;
        };
        match command {
            Command::Take(entries, text) => take(rt, &mut sheet, entries, text)?,
            Command::Remove(low, high) => println!(rt; "{}", Answer(sheet.remove(low, high)))?,
            Command::Restore(low, high) => println!(rt; "{}", Answer(sheet.restore(low, high)))?,
            Command::RemoveOne(number) => println!(rt; "{}", Answer(sheet.remove_one(number)))?,
            Command::RestoreOne(number) => println!(rt; "{}", Answer(sheet.restore_one(number)))?,
            Command::Days => println!(rt; "{}", sheet.days())?,
            Command::Pulses => println!(rt; "{}", sheet.pulses())?,
            Command::Pulse(number) => pulse(rt, &sheet, number)?,
            Command::Standing(day) => println!(rt; "{}", Answer(sheet.standing(day).map(Columns)))?,
            Command::Trace(room) => trace(rt, &sheet, room)?,
            Command::Swing => println!(rt; "{}", Answer(sheet.swing().map(Columns)))?,
            Command::List => list(rt, &sheet)?,
            Command::Memory => return Ok(Ending::MemoryAsked),
        }
    }
    Ok(Ending::AllRead)
}

// Reads a text, each line of it ended, and takes its record.
fn take<K: Total, S: Shelf<K>>(
    rt: &HostRuntime,
    sheet: &mut Sheet<K, S>,
    entries: usize,
    lines: &[u8],
) -> anyhow::Result<()> {
    let mut text = lines.to_vec(rt.alloc())?;
    if !lines.is_empty() && !lines.ends_with(b"\n") {
        text.push(b'\n')?;
    }
    let mut totals = vec![in rt.alloc(); K::zero(); MOST_DAYS]?;
    let mut work = vec![in rt.alloc(); WorkEntry::<K>::new(); entries]?;
    match read_trace(&text, &mut totals) {
        Ok(days) => println!(rt; "{}", Answer(sheet.take(&totals[..days], &mut work)))?,
        Err(fault) => {
            let number = fault.number();
            let place = fault.place();
            println!(rt; "refusal {number} {} {}", place.line, place.byte)?;
        }
    }
    Ok(())
}

fn pulse<K: Total, S: Shelf<K>>(
    rt: &HostRuntime,
    sheet: &Sheet<K, S>,
    number: usize,
) -> anyhow::Result<()> {
    let pulse = sheet.pulse(number).map(|pulse| Numbered(number, pulse));
    println!(rt; "{}", Answer(pulse))?;
    Ok(())
}

// The standing trace through a list of so many entries.
fn trace<K: Total, S: Shelf<K>>(
    rt: &HostRuntime,
    sheet: &Sheet<K, S>,
    room: usize,
) -> anyhow::Result<()> {
    let mut totals = vec![in rt.alloc(); K::zero(); room]?;
    match sheet.trace(&mut totals) {
        Ok(days) => println!(rt; "{}", Totals(&totals[..days]))?,
        Err(stop) => println!(rt; "{}", Stopped(stop))?,
    }
    Ok(())
}

// The pulse text with the states.
fn list<K: Total, S: Shelf<K>>(rt: &HostRuntime, sheet: &Sheet<K, S>) -> anyhow::Result<()> {
    let mut out = vec![in rt.alloc(); 0u8; MOST_REPORT_BYTES]?;
    match write_pulses(sheet, &mut out) {
        Ok(bytes) => rt.stdout().write_all(&out[..bytes])?,
        Err(stop) => println!(rt; "{}", Stopped(stop))?,
    }
    Ok(())
}
