// The work list of a take: the totals of days 0 to days + 1, known at the ends of their runs.
ghost use Rattle.std.specs.Prelude.{◌≡◌, ◌<◌, length};
ghost use Rattle.splitting.specs.Work.{Cleared, view, with_end, with_mark, with_run};

use kinds::Total;

// One entry of a work list. Entry d belongs to day d, where day 0 and the day after the last stand
// for the days outside the record.
#[derive(Clone, Copy)]
pub struct WorkEntry<K> {
    // the day's total, right at the first and the last day of a run
    total: K,
    // at the first day of a run its last day, and at its last day its first
    other: usize,
    // entry i holds mark number i: the first day of a run that may be a bump or a pit
    mark: usize,
}

impl<K: Total> WorkEntry<K> {
    // An entry to fill a work list with.
    pub fn new() -> WorkEntry<K>
        ensures { Cleared K.kind K.columns result }
    {
        WorkEntry {
            total: K::zero(),
            other: 0,
            mark: 0,
        }
    }
}

// Work lists stay slices that are lent at each call: take has no list of its own, and a struct round
// a borrowed one would be made anew for every call.

#[tactic(auto, unfolding(crate::specs::Work::view))]
pub(crate) fn total_at<K: Total>(work: &[WorkEntry<K>], day: usize) -> K
    requires { day < length work.now }
    ensures { K.columns result ≡ (view K.kind K.columns work.now).total day }
{
    work[day].total
}

// The other end of the run that begins or ends on a day.
#[tactic(auto, unfolding(crate::specs::Work::view))]
pub(crate) fn other_at<K: Total>(work: &[WorkEntry<K>], day: usize) -> usize
    requires { day < length work.now }
    ensures { result ≡ (view K.kind K.columns work.now).other day }
{
    work[day].other
}

#[tactic(auto, unfolding(crate::specs::Work::view))]
pub(crate) fn mark_at<K: Total>(work: &[WorkEntry<K>], number: usize) -> usize
    requires { number < length work.now }
    ensures { result ≡ (view K.kind K.columns work.now).mark number }
{
    work[number].mark
}

#[tactic(auto, using(crate::proofs::Views::mark_written))]
pub(crate) fn set_mark<K: Total>(work: &mut [WorkEntry<K>], number: usize, first: usize)
    requires { number < length work.old }
    ensures { view K.kind K.columns work.new ≡ with_mark (view K.kind K.columns work.old) number first }
{
    work[number].mark = first;
}

// Makes a run of the days from first to last, which hold one total: its two ends are written, and
// nothing between them.
pub(crate) fn set_run<K: Total>(work: &mut [WorkEntry<K>], first: usize, last: usize, total: K)
    requires first_in_bounds { first < length work.old }
    requires last_in_bounds { last < length work.old }
    ensures { view K.kind K.columns work.new ≡ with_run (view K.kind K.columns work.old) first last (K.columns total) }
{
    set_end(work, first, last, total);
    set_end(work, last, first, total);
}

#[tactic(auto, using(crate::proofs::Views::end_written))]
fn set_end<K: Total>(work: &mut [WorkEntry<K>], day: usize, other: usize, total: K)
    requires { day < length work.old }
    ensures { view K.kind K.columns work.new ≡ with_end (view K.kind K.columns work.old) day other (K.columns total) }
{
    let entry = &mut work[day];
    entry.total = total;
    entry.other = other;
}
