// What the lent memory holds, a line a slot.
use crate::answers::Columns;
use kinds::Total;
use shelves::{Row, slot_size};
use std::{fmt, io};

pub fn print_rows<K: Total>(rt: &HostRuntime, rows: &[Row<K>]) -> io::Result<()> {
    for row in rows {
        let first = row.first;
        let width = row.width;
        let mark = row.mark;
        println!(rt; "{first},{width},{mark},{}", Columns(row.amount))?;
    }
    Ok(())
}

// Bytes by two figures each.
#[derive(Clone, Copy)]
struct Figures<'a>(&'a [u8]);

impl fmt::Display for Figures<'_> {
    fn fmt<W: fmt::Write>(&self, f: &mut fmt::Formatter<W>) -> fmt::Result {
        for byte in self.0 {
            write!(f, "{byte:02x}")?;
        }
        Ok(())
    }
}

// The bytes of each slot on a line, then those past the slots.
pub fn print_bytes<K: Total>(rt: &HostRuntime, bytes: &[u8]) -> io::Result<()> {
    for slot in bytes.chunks(slot_size::<K>()) {
        println!(rt; "{}", Figures(slot))?;
    }
    Ok(())
}
