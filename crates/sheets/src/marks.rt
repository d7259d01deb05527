// Marking pulses out and in.
ghost use Rattle.std.specs.Prelude.{◌≡◌, suc, ◌<◌, ◌&&◌, length, if◌then◌else◌, Some, None, nat_le, slice_index_or, slice_set};
ghost use Rattle.shelves.specs.Slots.{is_out, shown};
ghost use Rattle.sheets.specs.Inside.{RowHeld, SlotMarked, SlotsMarked, entry_of};
ghost use Rattle.sheets.specs.Calls.{marking, marking_one};
ghost use Rattle.sheets.specs.Marks.{remarked};

use crate::sheet::Stop;
use kinds::Total;
use shelves::{Mark, Row, Shelf};

// The widths from the lowest to the highest.
#[derive(Clone, Copy)]
pub(crate) struct Widths {
    pub(crate) lowest: usize,
    pub(crate) highest: usize,
}

impl Widths {
    fn holds(self, width: usize) -> bool
        ensures { result ≡ nat_le self.lowest width && nat_le width self.highest }
    {
        (self.lowest..=self.highest).contains(&width)
    }
}

// The row that a slot holds, whose mark is in or out.
#[derive(Clone, Copy)]
pub(crate) struct HeldRow<K> {
    pub(crate) first: u16,
    pub(crate) width: u16,
    pub(crate) mark: Mark,
    pub(crate) amount: K,
}

// The row by its numbers, as a shelf takes it.
impl<K: Total> From<HeldRow<K>> for Row<K> {
    ghost from_gives = { λ held row. (row.first ≡ held.first) × (row.width ≡ held.width) × (shown K.kind K.columns row ≡ Some (entry_of K.kind K.columns held)) };

    fn from(held: HeldRow<K>) -> Row<K> {
        Row {
            first: held.first,
            width: held.width,
            mark: u8::from(held.mark),
            amount: held.amount,
        }
    }
}

// The row in a slot. A slot without one is a state that no list of calls leads to.
pub(crate) fn held_row<K: Total, S: Shelf<K>>(shelf: &S, slot: usize) -> Result<HeldRow<K>, Stop>
    ensures { RowHeld K.kind K.columns (S.slots shelf.now) slot result }
{
    let Ok(Some(row)) = shelf.read(slot) else {
        return Err(Stop::Unreachable);
    };
    let mark = row.state().ok_or(Stop::Unreachable)?;
    Ok(HeldRow {
        first: row.first,
        width: row.width,
        mark,
        amount: row.amount,
    })
}

// Marks the row in a slot, unless it has that mark. Answers how many marks changed.
fn mark_row<K: Total, S: Shelf<K>>(shelf: &mut S, slot: usize, row: HeldRow<K>, mark: Mark) -> usize
    requires { (slot < length (S.slots shelf.old)) × (slice_index_or (S.slots shelf.old) slot None ≡ Some (entry_of K.kind K.columns row)) }
    ensures answer { result ≡ (if is_out row.mark then (if is_out mark then 0 else 1) else (if is_out mark then 1 else 0)) }
    ensures slots { S.slots shelf.new ≡ slice_set (S.slots shelf.old) slot (Some (remarked (is_out mark) (entry_of K.kind K.columns row))) }
    ensures outside { S.outside shelf.new ≡ S.outside shelf.old }
{
    if row.mark == mark {
        return 0;
    }
    let marked = HeldRow { mark, ..row };
    shelf.put(slot, &Row::from(marked)).unwrap();
    1
}

// Marks the row in a slot if its width is one of these. Answers how many marks changed.
fn mark_within<K: Total, S: Shelf<K>>(
    shelf: &mut S,
    slot: usize,
    mark: Mark,
    widths: Widths,
) -> Result<usize, Stop>
    ensures slots { SlotMarked K.kind (marking mark widths.lowest widths.highest) slot (S.slots shelf.old) (S.slots shelf.new) result }
    ensures outside { S.outside shelf.new ≡ S.outside shelf.old }
{
    let row = held_row(shelf, slot)?;
    if widths.holds(usize::from(row.width)) {
        Ok(mark_row(shelf, slot, row, mark))
    } else {
        Ok(0)
    }
}

// Marks the row in a slot. Answers how many marks changed.
pub(crate) fn mark_slot<K: Total, S: Shelf<K>>(
    shelf: &mut S,
    slot: usize,
    mark: Mark,
) -> Result<usize, Stop>
    ensures slots { SlotMarked K.kind (marking_one mark (suc slot)) slot (S.slots shelf.old) (S.slots shelf.new) result }
    ensures outside { S.outside shelf.new ≡ S.outside shelf.old }
{
    let row = held_row(shelf, slot)?;
    Ok(mark_row(shelf, slot, row, mark))
}

// Marks the rows of the first slots that have one of these widths. Answers how many marks changed.
pub(crate) fn mark_widths<K: Total, S: Shelf<K>>(
    shelf: &mut S,
    count: usize,
    mark: Mark,
    widths: Widths,
) -> Result<usize, Stop>
    ensures slots { SlotsMarked K.kind (marking mark widths.lowest widths.highest) count (S.slots shelf.old) (S.slots shelf.new) result }
    ensures outside { S.outside shelf.new ≡ S.outside shelf.old }
{
    let mut changed = 0;
    for slot in 0..count {
        changed += mark_within(shelf, slot, mark, widths)?;
    }
    Ok(changed)
}
