// The questions of a sheet. They change nothing.
ghost use Rattle.std.specs.Prelude.{◌≡◌, ◌≤◌, length};
ghost use Rattle.kinds.specs.Columns.{nought};
ghost use Rattle.kinds.specs.Kinds.{Gives};
ghost use Rattle.transform.specs.Pulses.{size};
ghost use Rattle.sheets.specs.Takes.{state_of};
ghost use Rattle.sheets.specs.Standing.{standing_total, standing_swing};
ghost use Rattle.sheets.specs.Questions.{ComesOut, Listed, StandingTotal, FilledAtLeast, Traced};
ghost use Rattle.sheets.specs.Inside.{Steps};

use crate::marks::held_row;
use crate::sheet::{Sheet, Stop};
use crate::standing::standing_on;
use kinds::Total;
use refusals::Refusal;
use shelves::{Mark, Row, Shelf, Stretch};

// A pulse as a sheet lists it.
#[derive(Clone, Copy)]
pub struct ListedPulse<K> {
    pub stretch: Stretch,
    pub mark: Mark,
    pub amount: K,
}

impl<K: Total, S: Shelf<K>> Sheet<K, S> {
    // The number of days of the record held.
    pub fn days(&self) -> usize
        ensures { result ≡ (state_of S.slots S.outside self.now).days }
    {
        self.days
    }

    // The number of pulses.
    pub fn pulses(&self) -> usize
        ensures { result ≡ (state_of S.slots S.outside self.now).count }
    {
        self.pulses
    }

    // The pulse of a number: its stretch, mark and amount.
    pub fn pulse(&self, number: usize) -> Result<ListedPulse<K>, Stop>
        ensures { Listed K.kind K.columns (state_of S.slots S.outside self.now) number result }
    {
        if number == 0 || number > self.pulses {
            return Err(Stop::Refused(Refusal::NoSuchPulse));
        }
        listed_pulse(self, number)
    }

    // The standing total of a day: the sum of the pulses marked in that cover it.
    pub fn standing(&self, day: usize) -> Result<K, Stop>
        ensures { StandingTotal K.kind K.columns (state_of S.slots S.outside self.now) day result }
    {
        if day == 0 || day > self.days {
            return Err(Stop::Refused(Refusal::NoSuchDay));
        }
        standing_on(self, day)
    }

    // Writes the standing trace into the first entries of a list. Answers the number of days.
    pub fn trace(&self, totals: &mut [K]) -> Result<usize, Stop>
        ensures answer { Traced K.kind K.columns (state_of S.slots S.outside self.now) totals.old totals.new result }
        ensures filled { FilledAtLeast K.kind K.columns (state_of S.slots S.outside self.now) totals.old totals.new result }
    {
        if totals.len() < self.days {
            return Err(Stop::Refused(Refusal::ListTooShort));
        }
        write_trace(self, totals)
    }

    // The swing of the standing trace.
    pub fn swing(&self) -> Result<K, Stop>
        ensures { ComesOut K.kind K.columns (state_of S.slots S.outside self.now) (standing_swing K.kind (state_of S.slots S.outside self.now)) result }
    {
        whole_swing(self)
    }
}

// The pulse of a number that is one.
fn listed_pulse<K: Total, S: Shelf<K>>(
    sheet: &Sheet<K, S>,
    number: usize,
) -> Result<ListedPulse<K>, Stop>
    requires { (1 ≤ number) × (number ≤ sheet.now.pulses) }
    ensures { Listed K.kind K.columns (state_of S.slots S.outside sheet.now) number result }
{
    let row = held_row(&sheet.shelf, number - 1)?;
    let stretch = Row::from(row).stretch().ok_or(Stop::Unreachable)?;
    Ok(ListedPulse {
        stretch,
        mark: row.mark,
        amount: row.amount,
    })
}

// Writes the standing trace into a list that has room.
fn write_trace<K: Total, S: Shelf<K>>(sheet: &Sheet<K, S>, totals: &mut [K]) -> Result<usize, Stop>
    requires { sheet.now.days ≤ length totals.old }
    ensures answer { Traced K.kind K.columns (state_of S.slots S.outside sheet.now) totals.old totals.new result }
    ensures filled { FilledAtLeast K.kind K.columns (state_of S.slots S.outside sheet.now) totals.old totals.new result }
{
    for (day, total) in totals[..sheet.days].iter_mut().enumerate() {
        *total = standing_on(sheet, day + 1)?;
    }
    Ok(sheet.days)
}

// An amount, or its negation if it is below zero.
fn size_of<K: Total>(amount: K) -> Option<K>
    ensures { Gives K.kind K.columns (size K.kind (K.columns amount)) result }
{
    if amount < K::zero() {
        K::zero().difference(amount)
    } else {
        Some(amount)
    }
}

// The sum with the size of a step from one total to the next.
fn with_step<K: Total>(sum: K, from: K, to: K) -> Option<K>
    ensures { Steps K.kind K.columns (K.columns sum) (K.columns from) (K.columns to) result }
{
    let step = to.difference(from)?;
    sum.sum(size_of(step)?)
}

// The sum with the size of the step from the last total to the zero after the last day.
fn with_last_step<K: Total>(sum: K, last: K) -> Option<K>
    ensures { Steps K.kind K.columns (K.columns sum) (K.columns last) (nought K.kind.arity) result }
{
    with_step(sum, last, K::zero())
}

// The sum of the sizes of the steps, from the zero before day 1 to the zero after the last day.
fn whole_swing<K: Total, S: Shelf<K>>(sheet: &Sheet<K, S>) -> Result<K, Stop>
    ensures { ComesOut K.kind K.columns (state_of S.slots S.outside sheet.now) (standing_swing K.kind (state_of S.slots S.outside sheet.now)) result }
{
    let zero = K::zero();
    let mut sum = zero;
    let mut before = zero;
    for day in 1..=sheet.days {
        let total = standing_on(sheet, day)?;
        sum = with_step(sum, before, total).ok_or(Stop::Unreachable)?;
        before = total;
    }
    with_last_step(sum, before).ok_or(Stop::Unreachable)
}
