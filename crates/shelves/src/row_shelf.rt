// A shelf over lent rows.
ghost use Rattle.std.specs.Prelude.{◌≡◌, length, slice_set};
ghost use Rattle.shelves.specs.Slots.{over_rows, shown, shown_rows, Put, Read};

use crate::row::{NoSuchSlot, Row};
use crate::shelf::{OverRows, Shelf};
use kinds::Total;

// One slot a row.
#[derive(Drop)]
pub struct RowShelf<'a, K> {
    rows: &'a mut [Row<K>],
}

// How many slots lent rows have.
fn row_count<K: Total>(rows: &[Row<K>]) -> usize
    ensures { result ≡ length (shown_rows K.kind K.columns rows.now) }
{
    rows.len()
}

// Writes a row whole.
fn put_row<K: Total>(rows: &mut [Row<K>], slot: usize, row: Row<K>) -> Result<(), NoSuchSlot>
    ensures answer { Put (length (shown_rows K.kind K.columns rows.old)) slot rows.old rows.new result }
    ensures slots { shown_rows K.kind K.columns rows.new ≡ slice_set (shown_rows K.kind K.columns rows.old) slot (shown K.kind K.columns row) }
    ensures rows { rows.new ≡ slice_set rows.old slot row }
{
    // By index: through `get_mut` the proof that no other row changes did not close.
    if slot < rows.len() {
        rows[slot] = row;
        Ok(())
    } else {
        Err(NoSuchSlot)
    }
}

// The row in a slot, unless it is blank.
fn read_row<K: Total>(rows: &[Row<K>], slot: usize) -> Result<Option<Row<K>>, NoSuchSlot>
    ensures { Read K.kind K.columns (shown_rows K.kind K.columns rows.now) slot result }
{
    let row = *rows.get(slot).ok_or(NoSuchSlot)?;
    Ok(row.state().map(|_| row))
}

impl<'a, K: Total> Shelf<K> for RowShelf<'a, K> {
    ghost slots = { λ s. shown_rows K.kind K.columns s.rows.now };

    ghost outside = { λ s. over_rows s.rows };

    fn capacity(&self) -> usize {
        let rows = &*self.rows;
        row_count(rows)
    }

    // The clauses of every shelf, and beside them the row that changes.
    fn put(&mut self, slot: usize, row: &Row<K>) -> Result<(), NoSuchSlot>
        ensures answer { Put (length (shown_rows K.kind K.columns self.old.rows.now)) slot self.old self.new result }
        ensures slots { shown_rows K.kind K.columns self.new.rows.now ≡ slice_set (shown_rows K.kind K.columns self.old.rows.now) slot (shown K.kind K.columns row.now) }
        ensures outside { over_rows self.new.rows ≡ over_rows self.old.rows }
        ensures rows { self.new.rows.now ≡ slice_set self.old.rows.now slot row.now }
    {
        put_row(self.rows, slot, *row)
    }

    fn read(&self, slot: usize) -> Result<Option<Row<K>>, NoSuchSlot> {
        let rows = &*self.rows;
        read_row(rows, slot)
    }
}

impl<'a, K: Total> RowShelf<'a, K> {
    // A shelf over lent rows.
    pub fn over(rows: &'a mut [Row<K>]) -> RowShelf<'a, K>
        ensures slots { ⟦<RowShelf<'a, K> as Shelf<K>>⟧.slots result ≡ shown_rows K.kind K.columns rows.old }
        ensures outside { ⟦<RowShelf<'a, K> as Shelf<K>>⟧.outside result ≡ over_rows rows.entry }
        ensures rows { result.rows ≡ rows.entry }
    {
        RowShelf { rows }
    }
}

impl<'a, K: Total> OverRows<'a, K> for RowShelf<'a, K> {
    fn over(rows: &'a mut [Row<K>]) -> RowShelf<'a, K>
        ensures slots { shown_rows K.kind K.columns result.rows.now ≡ shown_rows K.kind K.columns rows.old }
        ensures outside { over_rows result.rows ≡ over_rows rows.entry }
        ensures rows { result.rows ≡ rows.entry }
    {
        RowShelf::over(rows)
    }
}
