// One pass of the run method: the bumps of one width are lowered to their higher neighbour, or the
// pits of that width raised to their lower one.
ghost use Rattle.std.specs.Prelude.{◌≡◌, ℕ, suc, ◌+◌, ◌-◌, ◌<◌, ◌≤◌, true, length, if◌then◌else◌, slice_set};
ghost use Rattle.kinds.specs.Columns.{within};
ghost use Rattle.shelves.specs.Slots.{listed, shown};
ghost use Rattle.transform.specs.Windows.{Record, trace};
ghost use Rattle.transform.specs.Pulses.{change};
ghost use Rattle.splitting.specs.declared.levelling.Aim.TheVariants.{Bumps, Pits};
ghost use Rattle.splitting.specs.Records.{marked_in, row_of};
ghost use Rattle.splitting.specs.Work.{view};
ghost use Rattle.splitting.specs.Passes.{aimed, FateOf, Joins, Relaid, bump_pulse, Marked, Midway, Visiting, Added, Ready, SlotsLeft, Swept};

use crate::work::{WorkEntry, mark_at, other_at, set_mark, set_run, total_at};
use kinds::Total;
use shelves::{Mark, Row, Shelf};

// What a pass levels: bumps, or pits, which are bumps of the turned order.
#[derive(Clone, Copy, PartialEq, Eq, Debug)]
pub(crate) enum Aim {
    Bumps,
    Pits,
}

impl Aim {
    // Whether a total lies below another, or in a pass at pits above it.
    fn under<K: Total>(self, a: K, b: K) -> bool
        ensures { result ≡ (aimed K.kind self).below (K.columns a) (K.columns b) }
    {
        match self {
            Aim::Bumps => a < b,
            Aim::Pits => b < a,
        }
    }

    // The one of two totals that is nearer to a bump above both, or in a pass at pits to a pit below.
    fn nearer<K: Total>(self, a: K, b: K) -> K
        ensures { K.columns result ≡ (if (aimed K.kind self).below (K.columns a) (K.columns b) then K.columns b else K.columns a) }
    {
        if self.under(a, b) { b } else { a }
    }
}

// A run after day 0: a longest stretch of days of equal totals.
#[derive(Clone, Copy)]
struct Run {
    first: usize,
    last: usize,
    ghost begins: { 0 < first },
    ghost ordered: { first ≤ last },
}

impl Run {
    fn width(self) -> usize
        ensures { suc self.last ≡ self.first + result }
    {
        self.last - self.first + 1
    }
}

// What a pass does with a marked run.
#[derive(Clone, Copy)]
enum Fate {
    // a bump of the pass's width is levelled
    Levelled,
    // another bump or pit keeps its mark
    Kept,
    // the mark of a run that is neither is dropped
    Dropped,
}

// How many marks and how many rows there are.
#[derive(Clone, Copy)]
pub(crate) struct Counts {
    pub marks: usize,
    pub rows: usize,
}

// Where a pass stands: how many marks it has kept, the last day that it has dealt with, and how many
// rows there are.
#[derive(Clone, Copy)]
struct Progress {
    kept: usize,
    reached: usize,
    rows: usize,
}

// A pass over a record of so many days. Work list and shelf are lent at each call.
#[derive(Clone, Copy)]
pub(crate) struct Pass {
    pub days: usize,
    pub width: usize,
    pub aim: Aim,
    ghost few: { days ≤ 1000 },
}

impl Pass {
    // The pass that levels the bumps of a width.
    pub(crate) fn bumps(days: usize, width: usize) -> Pass
        requires { days ≤ 1000 }
        ensures { (result.days ≡ days) × (result.width ≡ width) × (result.aim ≡ Bumps) }
    {
        Pass {
            days,
            width,
            aim: Aim::Bumps,
        }
    }

    // The pass that levels the pits of a width.
    pub(crate) fn pits(days: usize, width: usize) -> Pass
        requires { days ≤ 1000 }
        ensures { (result.days ≡ days) × (result.width ≡ width) × (result.aim ≡ Pits) }
    {
        Pass {
            days,
            width,
            aim: Aim::Pits,
        }
    }

    // Levels the runs of the pass's width that it aims at, from the left, and puts their rows. Marks
    // of runs that are neither bump nor pit are dropped.
    pub(crate) fn level_width<K: Total, S: Shelf<K>>(
        self,
        work: &mut [WorkEntry<K>],
        shelf: &mut S,
        start: Counts,
    ) -> Counts
        requires room { self.days + 2 ≤ length work.old }
        requires rows { start.rows ≤ self.days }
        requires stands { (b : Record K.kind) × (a : Record K.kind) × Ready K.kind self.aim self.width self.days (view K.kind K.columns work.old) start.marks b a × SlotsLeft {K = K.kind} (change K.kind b a) self.days 0 start.rows (length (S.slots shelf.old)) }
        ensures stands { (b a : Record K.kind) → Ready K.kind self.aim self.width self.days (view K.kind K.columns work.old) start.marks b a → Swept K.kind self.aim self.days (view K.kind K.columns work.new) result.marks b a start.rows result.rows (S.slots shelf.old) (S.slots shelf.new) }
        ensures outside { S.outside shelf.new ≡ S.outside shelf.old }
    {
        let mut at = Progress {
            kept: 0,
            reached: 0,
            rows: start.rows,
        };
        // Stays a loop over numbers: the marks are written while they are read.
        for number in 0..start.marks {
            let first = mark_at(work, number);
            if first > at.reached {
                at = self.visit(work, shelf, first, at);
            }
        }
        Counts {
            marks: at.kept,
            rows: at.rows,
        }
    }

    // One marked run in the pass.
    fn visit<K: Total, S: Shelf<K>>(
        self,
        work: &mut [WorkEntry<K>],
        shelf: &mut S,
        first: usize,
        at: Progress,
    ) -> Progress
        requires room { self.days + 2 ≤ length work.old }
        requires rows { at.rows < 65536 }
        requires stands { (b : Record K.kind) × (a : Record K.kind) × (i : ℕ) × (hi : ℕ) × Visiting K.kind self.aim self.width self.days (view K.kind K.columns work.old) at.kept at.reached first b a i hi × SlotsLeft {K = K.kind} (change K.kind b a) self.days at.reached at.rows (length (S.slots shelf.old)) }
        ensures stands { (b a : Record K.kind) (i hi : ℕ) → Visiting K.kind self.aim self.width self.days (view K.kind K.columns work.old) at.kept at.reached first b a i hi → Midway (aimed K.kind self.aim) self.width (suc self.days) (trace K.kind b) (view K.kind K.columns work.new) (suc i) hi result.kept result.reached × Added K.kind (change K.kind b a) at.reached result.reached at.rows result.rows (S.slots shelf.old) (S.slots shelf.new) }
        ensures rows { result.rows ≤ at.rows + 1 }
        ensures outside { S.outside shelf.new ≡ S.outside shelf.old }
    {
        let run = Run {
            first,
            last: other_at(work, first),
        };
        match self.fate_of(work, run) {
            Fate::Levelled => {
                let rows = put_next(shelf, at.rows, self.pulse(work, run));
                let (first, last) = self.level(work, run);
                Progress {
                    kept: marked(work, at.kept, first),
                    reached: last,
                    rows,
                }
            }
            Fate::Kept => {
                set_mark(work, at.kept, first);
                Progress {
                    kept: at.kept + 1,
                    reached: run.last,
                    ..at
                }
            }
            Fate::Dropped => Progress {
                reached: run.last,
                ..at
            },
        }
    }

    // What the pass does with a run. One that reaches the day after the last is neither bump nor pit.
    fn fate_of<K: Total>(self, work: &[WorkEntry<K>], run: Run) -> Fate
        requires days_in_bounds { self.days + 2 ≤ length work.now }
        requires last_bound { run.last ≤ suc self.days }
        ensures { FateOf (aimed K.kind self.aim) self.days self.width run.first run.last ((view K.kind K.columns work.now).total (run.first - 1)) ((view K.kind K.columns work.now).total run.first) ((view K.kind K.columns work.now).total (run.last + 1)) result }
    {
        if run.last > self.days {
            return Fate::Dropped;
        }
        let here = total_at(work, run.first);
        let left = total_at(work, run.first - 1);
        let right = total_at(work, run.last + 1);
        if self.aim.under(left, here) {
            if !self.aim.under(right, here) {
                Fate::Dropped
            } else if run.width() == self.width {
                Fate::Levelled
            } else {
                Fate::Kept
            }
        } else if self.aim.under(here, right) {
            Fate::Kept
        } else {
            Fate::Dropped
        }
    }

    // The row of a run's pulse: what its days hold above the nearer neighbour.
    fn pulse<K: Total>(self, work: &[WorkEntry<K>], run: Run) -> Row<K>
        requires last_in_bounds { run.last + 1 < length work.now }
        requires first_bound { run.first < 65536 }
        requires width_bound { self.width < 65536 }
        requires run_entered { within K.kind.arity K.kind.bound ((view K.kind K.columns work.now).total run.first) ≡ true }
        requires left_entered { within K.kind.arity K.kind.bound ((view K.kind K.columns work.now).total (run.first - 1)) ≡ true }
        requires right_entered { within K.kind.arity K.kind.bound ((view K.kind K.columns work.now).total (run.last + 1)) ≡ true }
        ensures { shown K.kind K.columns result ≡ row_of (bump_pulse K.kind self.aim (view K.kind K.columns work.now) self.width run.first run.last) }
    {
        let left = total_at(work, run.first - 1);
        let right = total_at(work, run.last + 1);
        let level = self.aim.nearer(left, right);
        let amount = total_at(work, run.first).difference(level).unwrap();
        row_in(run.first, self.width, amount)
    }

    // Levels a run to its nearer neighbour, with which it then is one run. Answers the first and the
    // last day of the new run.
    fn level<K: Total>(self, work: &mut [WorkEntry<K>], run: Run) -> (usize, usize)
        requires last_in_bounds { run.last + 1 < length work.old }
        requires left_in_bounds { (view K.kind K.columns work.old).other (run.first - 1) < length work.old }
        requires right_in_bounds { (view K.kind K.columns work.old).other (run.last + 1) < length work.old }
        ensures { Relaid (aimed K.kind self.aim) (view K.kind K.columns work.old) (view K.kind K.columns work.new) run.first run.last result.0 result.1 }
    {
        let left = total_at(work, run.first - 1);
        let right = total_at(work, run.last + 1);
        let total = self.aim.nearer(left, right);
        let first = joined(work, total, run.first - 1, run.first);
        let last = joined(work, total, run.last + 1, run.last);
        set_run(work, first, last, total);
        (first, last)
    }
}

// The row of a pulse, marked in.
fn row_in<K: Total>(first: usize, width: usize, amount: K) -> Row<K>
    requires first_bound { first < 65536 }
    requires width_bound { width < 65536 }
    ensures { shown K.kind K.columns result ≡ marked_in first width (listed K.kind.arity (K.columns amount)) }
{
    Row {
        first: first as u16,
        width: width as u16,
        mark: u8::from(Mark::In),
        amount,
    }
}

// An end of a levelled run: it moves to the other end of the run beside it if that holds the same.
fn joined<K: Total>(work: &[WorkEntry<K>], level: K, neighbour: usize, end: usize) -> usize
    requires { neighbour < length work.now }
    ensures { Joins (view K.kind K.columns work.now) ((view K.kind K.columns work.now).total neighbour) (K.columns level) neighbour end result }
{
    if total_at(work, neighbour) == level {
        other_at(work, neighbour)
    } else {
        end
    }
}

// Marks a run, unless it has the last mark or reaches back before day 1. Answers the number of marks.
fn marked<K: Total>(work: &mut [WorkEntry<K>], kept: usize, first: usize) -> usize
    requires { kept < length work.old }
    ensures { Marked (view K.kind K.columns work.old) (view K.kind K.columns work.new) kept first result }
{
    if first == 0 || kept > 0 && mark_at(work, kept - 1) == first {
        return kept;
    }
    set_mark(work, kept, first);
    kept + 1
}

// Puts a row after those that there are. Answers their new number.
fn put_next<K: Total, S: Shelf<K>>(shelf: &mut S, rows: usize, row: Row<K>) -> usize
    requires few { rows < 65536 }
    requires slot { rows < length (S.slots shelf.old) }
    ensures slots { S.slots shelf.new ≡ slice_set (S.slots shelf.old) rows (shown K.kind K.columns row) }
    ensures rows { result ≡ rows + 1 }
    ensures outside { S.outside shelf.new ≡ S.outside shelf.old }
{
    shelf.put(rows, &row).unwrap();
    rows + 1
}
