// What a shelf is to everything above.
ghost use Rattle.std.specs.Prelude.{◌≡◌, List, length, Option, slice_set};
ghost use Rattle.shelves.specs.Bytes.{over_bytes, shown_bytes};
ghost use Rattle.shelves.specs.Slots.{Entry, Outside, over_rows, Put, Read, shown, shown_rows};

use crate::row::{NoSuchSlot, Row};
use kinds::Total;

// Slots numbered from 0, each blank or holding a row.
pub trait Shelf<K: Total> {
    ghost slots: { Self → List (Option Entry) };

    // the lent memory besides the slots
    ghost outside: { Self → Outside };

    // The number of slots.
    fn capacity(&self) -> usize
        ensures { result ≡ length (slots self.now) };

    // Fills one slot with a row. A row whose mark is neither 0 nor 1 makes the slot blank.
    fn put(&mut self, slot: usize, row: &Row<K>) -> Result<(), NoSuchSlot>
        ensures answer { Put (length (slots self.old)) slot self.old self.new result }
        ensures slots { slots self.new ≡ slice_set (slots self.old) slot (shown K.kind K.columns row.now) }
        ensures outside { outside self.new ≡ outside self.old };

    // The row in a slot, or nothing where the slot is blank.
    fn read(&self, slot: usize) -> Result<Option<Row<K>>, NoSuchSlot>
        ensures { Read K.kind K.columns (slots self.now) slot result };
}

// A shelf over lent rows, for code generic over the shelf.
pub trait OverRows<'a, K: Total>: Shelf<K> {
    // One slot a row.
    fn over(rows: &'a mut [Row<K>]) -> Self
        ensures slots { Self.Shelf.slots result ≡ shown_rows K.kind K.columns rows.old }
        ensures outside { Self.Shelf.outside result ≡ over_rows rows.entry };
}

// A shelf over lent bytes, for code generic over the shelf.
pub trait OverBytes<'a, K: Total>: Shelf<K> {
    // As many slots as whole slots fit; the bytes past them never change.
    fn over(bytes: &'a mut [u8]) -> Self
        ensures slots { Self.Shelf.slots result ≡ shown_bytes K.kind bytes.old }
        ensures outside { Self.Shelf.outside result ≡ over_bytes K.kind bytes.entry };
}
