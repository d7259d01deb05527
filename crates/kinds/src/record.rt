// Records: the totals of day 1, day 2 and so on.
ghost use Rattle.std.specs.Prelude.{◌≡◌, map};
ghost use Rattle.kinds.specs.Entries.{not_entered};

use crate::total::Total;

// The days that a record has at most.
pub const MOST_DAYS: usize = 1000;

// The first day, counted from 1, whose total may not be entered.
pub fn first_barred<K: Total>(totals: &[K]) -> Option<usize>
    ensures { result ≡ not_entered K.kind 1 (map K.columns totals.now) }
{
    let mut day = 0usize;
    // Stays a loop with a counter: the project fixed the form in which this day is found.
    for total in totals {
        day += 1;
        if !total.may_enter() {
            return Some(day);
        }
    }
    None
}
