// What a caller knows of the memory that he lent to code over any shelf.
ghost use Rattle.std.specs.Prelude.{◌≡◌, slice_set};
ghost use Rattle.shelves.specs.Bytes.{past, shown_bytes};
ghost use Rattle.shelves.specs.Slots.{shown, shown_rows};

use crate::plain::{read, read_row};
use crate::row;
use kinds::{Cents, Total};
use shelves::{ByteShelf, Row, RowShelf, Shelf};

// Puts a row into the first two slots, as far as there are such slots.
fn fill<K: Total, S: Shelf<K>>(shelf: &mut S, row: &Row<K>)
    ensures slots { S.Shelf.slots shelf.new ≡ slice_set (slice_set (S.Shelf.slots shelf.old) 0 (shown K.kind K.columns row.now)) 1 (shown K.kind K.columns row.now) }
    ensures outside { S.Shelf.outside shelf.new ≡ S.Shelf.outside shelf.old }
{
    let _ = shelf.put(0, row);
    let _ = shelf.put(1, row);
}

fn fill_rows<K: Total>(rows: &mut [Row<K>], row: &Row<K>)
    ensures { shown_rows K.kind K.columns rows.new ≡ slice_set (slice_set (shown_rows K.kind K.columns rows.old) 0 (shown K.kind K.columns row.now)) 1 (shown K.kind K.columns row.now) }
{
    let mut shelf = RowShelf::over(rows);
    fill(&mut shelf, row);
}

fn fill_bytes<K: Total>(bytes: &mut [u8], row: &Row<K>)
    ensures slots { shown_bytes K.kind bytes.new ≡ slice_set (slice_set (shown_bytes K.kind bytes.old) 0 (shown K.kind K.columns row.now)) 1 (shown K.kind K.columns row.now) }
    ensures past { past K.kind bytes.new ≡ past K.kind bytes.old }
{
    let mut shelf = ByteShelf::over(bytes);
    fill(&mut shelf, row);
}

#[test]
fn both_are_filled(rt: HostRuntime) {
    let filled = Ok(Some(row(2, 3, 1, Cents::new(4))));
    let mut rows = [row(0, 0, 0, Cents::new(0)); 2];
    fill_rows(&mut rows, &row(2, 3, 1, Cents::new(4)));
    assert_eq!(rt; read_row(&mut rows, 1), filled);
    let mut bytes = [0u8; 33];
    fill_bytes(&mut bytes, &row(2, 3, 1, Cents::new(4)));
    assert_eq!(rt; read::<Cents>(&mut bytes, 1), filled);
}
