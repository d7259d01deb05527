// A record laid out in the work list, run by run.
ghost use Rattle.std.specs.Prelude.{◌≡◌, suc, ◌+◌, ◌<◌, ◌≤◌, map, length};
ghost use Rattle.kinds.specs.Columns.{nought};
ghost use Rattle.transform.specs.Windows.{trace};
ghost use Rattle.splitting.specs.Work.{view};
ghost use Rattle.splitting.specs.Runs.{Extends, Knows, Marks};

use crate::work::{WorkEntry, set_mark, set_run};
use kinds::Total;

// How far the record is laid out: the first day and the total of the run that is open, and how many
// marks there are.
#[derive(Clone, Copy)]
struct Layout<K> {
    first: usize,
    marks: usize,
    total: K,
}

impl<K: Total> Layout<K> {
    // One day more, with its total. Where it differs from the run that is open, that run is closed,
    // and the day begins the next one.
    fn extended(self, work: &mut [WorkEntry<K>], day: usize, total: K) -> Layout<K>
        requires first_le_day { self.first ≤ day }
        requires marks_le_day { self.marks ≤ day }
        requires day_in_bounds { day < length work.old }
        ensures laid { Extends (view K.kind K.columns work.old) (view K.kind K.columns work.new) day (K.columns total) self.first self.marks (K.columns self.total) result.first result.marks (K.columns result.total) }
        ensures first { result.first ≤ suc day }
        ensures marks { result.marks ≤ suc day }
    {
        if self.total == total {
            return self;
        }
        set_run(work, self.first, day, self.total);
        set_mark(work, self.marks, day + 1);
        Layout {
            first: day + 1,
            marks: self.marks + 1,
            total,
        }
    }

    // The end of the record: the day after it, with the total of the days outside.
    fn ended(self, work: &mut [WorkEntry<K>], days: usize) -> Layout<K>
        requires first_le_days { self.first ≤ days }
        requires marks_le_days { self.marks ≤ days }
        requires days_in_bounds { days < length work.old }
        ensures laid { Extends (view K.kind K.columns work.old) (view K.kind K.columns work.new) days (nought K.kind.arity) self.first self.marks (K.columns self.total) result.first result.marks (K.columns result.total) }
        ensures first { result.first ≤ suc days }
        ensures marks { result.marks ≤ suc days }
    {
        self.extended(work, days, K::zero())
    }
}

// Lays the record out in runs and marks each of them. Answers the number of marks.
pub(crate) fn build<K: Total>(totals: &[K], work: &mut [WorkEntry<K>]) -> usize
    requires { length totals.now + 2 ≤ length work.old }
    ensures knows { Knows (suc (length totals.now)) (suc (suc (length totals.now))) (view K.kind K.columns work.new) (trace K.kind (map K.columns totals.now)) }
    ensures marks { Marks K.kind (trace K.kind (map K.columns totals.now)) (view K.kind K.columns work.new).mark 0 result 0 (suc (length totals.now)) }
    ensures few { result ≤ suc (length totals.now) }
{
    let mut at = Layout {
        first: 0,
        marks: 0,
        total: K::zero(),
    };
    for (day, total) in totals.iter().enumerate() {
        at = at.extended(work, day, *total);
    }
    let days = totals.len();
    at = at.ended(work, days);
    set_run(work, at.first, days + 1, at.total);
    at.marks
}
