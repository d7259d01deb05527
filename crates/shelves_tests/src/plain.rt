// Shelves as a test uses them, one call each.
use kinds::Total;
use shelves::{ByteShelf, NoSuchSlot, Row, RowShelf, Shelf};

// What a read answers: no such slot, a blank one or a row.
pub type Told<K> = Result<Option<Row<K>>, NoSuchSlot>;

pub fn capacity<K: Total>(bytes: &mut [u8]) -> usize {
    ByteShelf::<K>::over(bytes).capacity()
}

pub fn read<K: Total>(bytes: &mut [u8], slot: usize) -> Told<K> {
    ByteShelf::over(bytes).read(slot)
}

pub fn put<K: Total>(bytes: &mut [u8], slot: usize, row: Row<K>) -> Result<(), NoSuchSlot> {
    ByteShelf::over(bytes).put(slot, &row)
}

pub fn read_row<K: Total>(rows: &mut [Row<K>], slot: usize) -> Told<K> {
    RowShelf::over(rows).read(slot)
}

pub fn put_row<K: Total>(rows: &mut [Row<K>], slot: usize, row: Row<K>) -> Result<(), NoSuchSlot> {
    RowShelf::over(rows).put(slot, &row)
}
