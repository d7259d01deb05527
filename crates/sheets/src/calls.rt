// The calls of a sheet: new, take, remove, restore, remove one and restore one.
ghost use Rattle.std.specs.Prelude.{◌≡◌, suc, ◌<◌, ◌≤◌, [], map, length};
ghost use Rattle.sheets.specs.Takes.{Take, opened, state_of};
ghost use Rattle.sheets.specs.Calls.{taking, marking, marking_one, removing, restoring, removing_one, restoring_one};
ghost use Rattle.sheets.specs.Marks.{Marking};
ghost use Rattle.sheets.specs.History.{Continues, Shows};
ghost use Rattle.sheets.specs.Promise.{Keeps, Promise};

use crate::marks::{Widths, mark_slot, mark_widths};
use crate::sheet::{Sheet, Stop};
use kinds::{MOST_DAYS, Total};
use refusals::Refusal;
use shelves::{Mark, Shelf};
use splitting::WorkEntry;
use std::marker::PhantomData;

impl<K: Total, S: Shelf<K>> Sheet<K, S> {
    // A sheet of the empty record, with no pulses. The slots are left alone.
    pub fn new(shelf: S) -> Sheet<K, S>
        ensures shelf { result.shelf ≡ shelf }
        ensures answer { state_of S.slots S.outside result ≡ opened (S.slots shelf) (S.outside shelf) }
        ensures history { Shows K.kind [] (state_of S.slots S.outside result) }
        ensures promise { Promise K.kind [] (state_of S.slots S.outside result) }
    {
        begun(shelf)
    }

    // Splits a record into its pulses and puts their rows, each marked in. What the sheet had is
    // replaced. Answers the number of pulses.
    pub fn take(&mut self, totals: &[K], work: &mut [WorkEntry<K>]) -> Result<usize, Stop>
        ensures answer { Take K.kind (map K.columns totals.now) (length work.old) (state_of S.slots S.outside self.old) (state_of S.slots S.outside self.new) self.old self.new work.old work.new result }
        ensures history { Continues K.kind (taking (map K.columns totals.now) (length work.old)) (state_of S.slots S.outside self.old) (state_of S.slots S.outside self.new) result }
        ensures promise { Keeps K.kind (taking (map K.columns totals.now) (length work.old)) (state_of S.slots S.outside self.old) (state_of S.slots S.outside self.new) }
    {
        self.take_record(totals, work)
    }

    // Marks out every pulse of a width from the lowest to the highest. Answers how many marks
    // changed.
    pub fn remove(&mut self, lowest: usize, highest: usize) -> Result<usize, Stop>
        ensures answer { Marking K.kind (removing lowest highest) (state_of S.slots S.outside self.old) (state_of S.slots S.outside self.new) self.old self.new result }
        ensures history { Continues K.kind (removing lowest highest) (state_of S.slots S.outside self.old) (state_of S.slots S.outside self.new) result }
        ensures promise { Keeps K.kind (removing lowest highest) (state_of S.slots S.outside self.old) (state_of S.slots S.outside self.new) }
    {
        mark_range(self, Mark::Out, Widths { lowest, highest })
    }

    // Marks in every pulse of a width from the lowest to the highest. Answers how many marks changed.
    pub fn restore(&mut self, lowest: usize, highest: usize) -> Result<usize, Stop>
        ensures answer { Marking K.kind (restoring lowest highest) (state_of S.slots S.outside self.old) (state_of S.slots S.outside self.new) self.old self.new result }
        ensures history { Continues K.kind (restoring lowest highest) (state_of S.slots S.outside self.old) (state_of S.slots S.outside self.new) result }
        ensures promise { Keeps K.kind (restoring lowest highest) (state_of S.slots S.outside self.old) (state_of S.slots S.outside self.new) }
    {
        mark_range(self, Mark::In, Widths { lowest, highest })
    }

    // Marks out the pulse of a number. Answers how many marks changed.
    pub fn remove_one(&mut self, number: usize) -> Result<usize, Stop>
        ensures answer { Marking K.kind (removing_one number) (state_of S.slots S.outside self.old) (state_of S.slots S.outside self.new) self.old self.new result }
        ensures history { Continues K.kind (removing_one number) (state_of S.slots S.outside self.old) (state_of S.slots S.outside self.new) result }
        ensures promise { Keeps K.kind (removing_one number) (state_of S.slots S.outside self.old) (state_of S.slots S.outside self.new) }
    {
        mark_one(self, Mark::Out, number)
    }

    // Marks in the pulse of a number. Answers how many marks changed.
    pub fn restore_one(&mut self, number: usize) -> Result<usize, Stop>
        ensures answer { Marking K.kind (restoring_one number) (state_of S.slots S.outside self.old) (state_of S.slots S.outside self.new) self.old self.new result }
        ensures history { Continues K.kind (restoring_one number) (state_of S.slots S.outside self.old) (state_of S.slots S.outside self.new) result }
        ensures promise { Keeps K.kind (restoring_one number) (state_of S.slots S.outside self.old) (state_of S.slots S.outside self.new) }
    {
        mark_one(self, Mark::In, number)
    }
}

// A sheet of the empty record, which begins a history.
// Stays apart from `new`, as `take_record`, `mark_range` and `mark_one` from their callers: by a rule
// of the project a public call has no proof file of its own.
fn begun<K: Total, S: Shelf<K>>(shelf: S) -> Sheet<K, S>
    ensures shelf { result.shelf ≡ shelf }
    ensures answer { state_of S.slots S.outside result ≡ opened (S.slots shelf) (S.outside shelf) }
    ensures history { Shows K.kind [] (state_of S.slots S.outside result) }
    ensures promise { Promise K.kind [] (state_of S.slots S.outside result) }
{
    blank(shelf)
}

// A sheet of the empty record.
// Stays apart from `begun`, as `mark_pulses`, `mark_number` and `hold_record` from their callers: it has
// no proof file, so that an edit of it is refused by its contract.
fn blank<K: Total, S: Shelf<K>>(shelf: S) -> Sheet<K, S>
    ensures shelf { result.shelf ≡ shelf }
    ensures answer { state_of S.slots S.outside result ≡ opened (S.slots shelf) (S.outside shelf) }
{
    Sheet {
        shelf,
        days: 0,
        pulses: 0,
        kind: PhantomData,
    }
}

// Sets a mark on every pulse that has one of the widths. No pulse is wider than a record has days.
fn mark_range<K: Total, S: Shelf<K>>(
    sheet: &mut Sheet<K, S>,
    mark: Mark,
    widths: Widths,
) -> Result<usize, Stop>
    ensures answer { Marking K.kind (marking mark widths.lowest widths.highest) (state_of S.slots S.outside sheet.old) (state_of S.slots S.outside sheet.new) sheet.old sheet.new result }
    ensures history { Continues K.kind (marking mark widths.lowest widths.highest) (state_of S.slots S.outside sheet.old) (state_of S.slots S.outside sheet.new) result }
    ensures promise { Keeps K.kind (marking mark widths.lowest widths.highest) (state_of S.slots S.outside sheet.old) (state_of S.slots S.outside sheet.new) }
{
    if widths.lowest == 0 || widths.lowest > widths.highest || widths.highest > MOST_DAYS {
        return Err(Stop::Refused(Refusal::WidthsOutOfRange));
    }
    mark_pulses(sheet, mark, widths)
}

// Sets a mark on every pulse that has one of the widths, which are in range.
fn mark_pulses<K: Total, S: Shelf<K>>(
    sheet: &mut Sheet<K, S>,
    mark: Mark,
    widths: Widths,
) -> Result<usize, Stop>
    requires { (1 ≤ widths.lowest) × (widths.lowest ≤ widths.highest) × (widths.highest ≤ 1000) }
    ensures { Marking K.kind (marking mark widths.lowest widths.highest) (state_of S.slots S.outside sheet.old) (state_of S.slots S.outside sheet.new) sheet.old sheet.new result }
{
    mark_widths(&mut sheet.shelf, sheet.pulses, mark, widths)
}

// Sets a mark on the pulse of a number.
fn mark_one<K: Total, S: Shelf<K>>(
    sheet: &mut Sheet<K, S>,
    mark: Mark,
    number: usize,
) -> Result<usize, Stop>
    ensures answer { Marking K.kind (marking_one mark number) (state_of S.slots S.outside sheet.old) (state_of S.slots S.outside sheet.new) sheet.old sheet.new result }
    ensures history { Continues K.kind (marking_one mark number) (state_of S.slots S.outside sheet.old) (state_of S.slots S.outside sheet.new) result }
    ensures promise { Keeps K.kind (marking_one mark number) (state_of S.slots S.outside sheet.old) (state_of S.slots S.outside sheet.new) }
{
    if number == 0 || number > sheet.pulses {
        return Err(Stop::Refused(Refusal::NoSuchPulse));
    }
    mark_number(sheet, mark, number)
}

// Sets a mark on the pulse of a number that is one.
fn mark_number<K: Total, S: Shelf<K>>(
    sheet: &mut Sheet<K, S>,
    mark: Mark,
    number: usize,
) -> Result<usize, Stop>
    requires { (1 ≤ number) × (number ≤ sheet.old.pulses) }
    ensures { Marking K.kind (marking_one mark number) (state_of S.slots S.outside sheet.old) (state_of S.slots S.outside sheet.new) sheet.old sheet.new result }
{
    mark_held(sheet, number - 1, mark)
}

// Sets a mark on the pulse in a slot.
fn mark_held<K: Total, S: Shelf<K>>(
    sheet: &mut Sheet<K, S>,
    slot: usize,
    mark: Mark,
) -> Result<usize, Stop>
    requires { slot < sheet.old.pulses }
    ensures { Marking K.kind (marking_one mark (suc slot)) (state_of S.slots S.outside sheet.old) (state_of S.slots S.outside sheet.new) sheet.old sheet.new result }
{
    mark_slot(&mut sheet.shelf, slot, mark)
}
