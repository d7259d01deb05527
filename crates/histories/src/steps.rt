// A new sheet, changed by a list of calls that are given by plain numbers.
ghost use Rattle.std.specs.Prelude.{◌≡◌, [], map, length, take as front, drop as behind};
ghost use Rattle.sheets.specs.Takes.{opened, state_of};
ghost use Rattle.sheets.specs.Promise.{Promise};
ghost use Rattle.histories.specs.Steps.{call_of, calls_of, GoesOnWork, Lead, LeadWork};

use kinds::Total;
use sheets::Sheet;
use shelves::Shelf;
use splitting::WorkEntry;

// One call.
#[derive(Clone, Copy)]
pub enum Step {
    // a take of so many of the totals beside, after the first so many of them, with so many entries
    // of the work list
    Take {
        skipped: usize,
        days: usize,
        entries: usize,
    },
    Remove {
        lowest: usize,
        highest: usize,
    },
    Restore {
        lowest: usize,
        highest: usize,
    },
    RemoveOne {
        number: usize,
    },
    RestoreOne {
        number: usize,
    },
}

// So many totals after the first so many, as far as there are any.
fn part<K: Total>(totals: &[K], skipped: usize, days: usize) -> &[K]
    ensures { result.now ≡ front days (behind skipped totals.now) }
{
    let rest = &totals[skipped.min(totals.len())..];
    &rest[..days.min(rest.len())]
}

// Performs one call.
fn perform<K: Total, S: Shelf<K>>(
    sheet: &mut Sheet<K, S>,
    step: Step,
    totals: &[K],
    work: &mut [WorkEntry<K>],
)
    ensures { GoesOnWork K.kind (call_of K.kind (map K.columns totals.now) (length work.old) step) (state_of S.slots S.outside sheet.old) (state_of S.slots S.outside sheet.new) work.old work.new }
{
    match step {
        Step::Take {
            skipped,
            days,
            entries,
        } => {
            let room = entries.min(work.len());
            let _ = sheet.take(part(totals, skipped, days), &mut work[..room]);
        }
        Step::Remove { lowest, highest } => {
            let _ = sheet.remove(lowest, highest);
        }
        Step::Restore { lowest, highest } => {
            let _ = sheet.restore(lowest, highest);
        }
        Step::RemoveOne { number } => {
            let _ = sheet.remove_one(number);
        }
        Step::RestoreOne { number } => {
            let _ = sheet.restore_one(number);
        }
    }
}

// Performs a list of calls, one after another, on a sheet that none has changed.
fn perform_all<K: Total, S: Shelf<K>>(
    sheet: &mut Sheet<K, S>,
    steps: &[Step],
    totals: &[K],
    work: &mut [WorkEntry<K>],
)
    requires { Promise K.kind [] (state_of S.slots S.outside sheet.old) }
    ensures led { Lead K.kind (calls_of K.kind (map K.columns totals.now) (length work.old) steps.now) (state_of S.slots S.outside sheet.old) (state_of S.slots S.outside sheet.new) }
    ensures work { LeadWork K.kind (calls_of K.kind (map K.columns totals.now) (length work.old) steps.now) (state_of S.slots S.outside sheet.old) (state_of S.slots S.outside sheet.new) work.old work.new }
    ensures promise { Promise K.kind (calls_of K.kind (map K.columns totals.now) (length work.old) steps.now) (state_of S.slots S.outside sheet.new) }
{
    for step in steps {
        perform(sheet, *step, totals, work);
    }
}

// The sheet after a list of calls: a new sheet over the shelf, whatever its slots hold, changed by
// each call in turn, accepted or refused.
pub fn sheet_after<K: Total, S: Shelf<K>>(
    shelf: S,
    steps: &[Step],
    totals: &[K],
    work: &mut [WorkEntry<K>],
) -> Sheet<K, S>
    ensures led { Lead K.kind (calls_of K.kind (map K.columns totals.now) (length work.old) steps.now) (opened (S.slots shelf) (S.outside shelf)) (state_of S.slots S.outside result) }
    ensures work { LeadWork K.kind (calls_of K.kind (map K.columns totals.now) (length work.old) steps.now) (opened (S.slots shelf) (S.outside shelf)) (state_of S.slots S.outside result) work.old work.new }
    ensures promise { Promise K.kind (calls_of K.kind (map K.columns totals.now) (length work.old) steps.now) (state_of S.slots S.outside result) }
{
    let mut sheet = Sheet::new(shelf);
    perform_all(&mut sheet, steps, totals, work);
    sheet
}
