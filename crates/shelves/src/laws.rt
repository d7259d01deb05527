// What holds of every shelf.
ghost use Rattle.std.specs.Prelude.{◌≡◌, length, slice_set};
ghost use Rattle.shelves.specs.Slots.{ComesBack, shown};

use crate::row::{NoSuchSlot, Row};
use crate::shelf::Shelf;
use kinds::Total;

// Puts a row and reads its slot: the row comes back, with the same numbers.
pub fn put_then_read<K: Total, S: Shelf<K>>(
    shelf: &mut S,
    slot: usize,
    row: &Row<K>,
) -> Result<Option<Row<K>>, NoSuchSlot>
    ensures back { ComesBack K.kind K.columns (length (S.Shelf.slots shelf.old)) slot row.now result }
    ensures slots { S.Shelf.slots shelf.new ≡ slice_set (S.Shelf.slots shelf.old) slot (shown K.kind K.columns row.now) }
    ensures outside { S.Shelf.outside shelf.new ≡ S.Shelf.outside shelf.old }
{
    shelf.put(slot, row)?;
    shelf.read(slot)
}
