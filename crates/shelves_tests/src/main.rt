// Runs one list of calls on shelves over rows and over bytes, and prints what each answers.
#![tactic(auto)]

#[cfg(test)]
mod blanks;
#[cfg(test)]
mod edges;
#[cfg(test)]
mod few;
#[cfg(test)]
mod layout;
#[cfg(test)]
mod lending;
#[cfg(test)]
mod plain;

use kinds::{Cents, Mobile, Pair, Pieces, Total};
use shelves::{ByteShelf, Row, RowShelf, Shelf};
use std::io;

// Puts the rows from slot 0 on, then reads every slot and the one past the last.
fn walk<K: Total, S: Shelf<K>>(rt: &impl Print, shelf: &mut S, rows: &[Row<K>]) -> io::Result<()> {
    let capacity = shelf.capacity();
    println!(rt; "capacity {capacity}")?;
    for (slot, row) in rows.iter().enumerate() {
        match shelf.put(slot, row) {
            Ok(()) => println!(rt; "put {slot}")?,
            Err(_) => println!(rt; "put {slot}: no such slot")?,
        }
    }
    for slot in 0..=capacity {
        match shelf.read(slot) {
            Ok(Some(row)) => show(rt, slot, &row)?,
            Ok(None) => println!(rt; "slot {slot}: blank")?,
            Err(_) => println!(rt; "slot {slot}: no such slot")?,
        }
    }
    Ok(())
}

fn show<K: Total>(rt: &impl Print, slot: usize, row: &Row<K>) -> io::Result<()> {
    let Row {
        first,
        width,
        mark,
        ..
    } = row;
    print!(rt; "slot {slot}: {width}@{first}, mark {mark}")?;
    for number in 1..=2u8 {
        if let Some(value) = row.amount.column(number) {
            print!(rt; ", {value}")?;
        }
    }
    println!(rt; "")
}

fn row<K: Total>(first: u16, width: u16, mark: u8, amount: K) -> Row<K> {
    Row {
        first,
        width,
        mark,
        amount,
    }
}

fn mobile(cents: i64, pieces: i64) -> Mobile {
    Pair {
        first: Cents::new(cents),
        second: Pieces::new(pieces),
    }
}

fn paper(rt: &impl Print) -> io::Result<()> {
    let puts = [
        row(1, 2, 0, Cents::new(-3)),
        row(65535, 258, 1, Cents::new(1_000_000_000_000)),
        row(4, 5, 9, Cents::new(6)),
    ];
    let mut rows = [row(0, 0, 0, Cents::new(0)); 4];
    println!(rt; "paper totals in rows")?;
    walk(rt, &mut RowShelf::over(&mut rows), &puts)?;
    let mut bytes = [0u8; 79];
    println!(rt; "paper totals in bytes")?;
    walk(rt, &mut ByteShelf::<Cents>::over(&mut bytes), &puts)?;
    println!(rt; "{bytes:?}")
}

fn mobiles(rt: &impl Print) -> io::Result<()> {
    let puts = [
        row(1, 1000, 1, mobile(-1, 1)),
        row(1000, 1, 0, mobile(1_000_000_000_000, -1_000_000_000)),
        row(2, 3, 255, mobile(4, 5)),
        row(6, 7, 0, mobile(8, 9)),
    ];
    let mut rows = [row(0, 0, 0, mobile(0, 0)); 3];
    println!(rt; "mobile totals in rows")?;
    walk(rt, &mut RowShelf::over(&mut rows), &puts)?;
    let mut bytes = [0u8; 73];
    println!(rt; "mobile totals in bytes")?;
    walk(rt, &mut ByteShelf::<Mobile>::over(&mut bytes), &puts)?;
    println!(rt; "{bytes:?}")
}

fn main(rt: HostRuntime) -> io::Result<()> {
    paper(&rt)?;
    mobiles(&rt)
}
