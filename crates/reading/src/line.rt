// One line of values of a trace text.
ghost use Rattle.std.specs.Prelude.{◌≡◌, ℕ, ◌+◌, ◌^◌, ◌<◌, ◌≤◌, length, Some, Err};
ghost use Rattle.kinds.specs.Kinds.{Gives};
ghost use Rattle.figures.specs.declared.heading.Heading.TheVariants.{Day};
ghost use Rattle.figures.specs.Headings.{letters, heading, heading_if, first as first_of, second as second_of};
ghost use Rattle.reading.specs.Parts.{fields, start_under};
ghost use Rattle.reading.specs.Traces.{malformed, number_under, number_if, is_day, filled, entered, check_line, then, read_line, told, Placed};
ghost use Rattle.refusals.specs.Faults.{at_figure, at_day, line_found, OnLine};

use crate::fields::{count_fields, field_of_line, start_under};
use crate::walk::Fields;
use figures::{Heading, first_column, read_figure, second_column};
use kinds::{MOST_DAYS, Total};
use refusals::{FieldFault, LineFault};

// The line of a day under the names line, and the byte of the text at which it starts.
#[derive(Clone, Copy)]
pub(crate) struct DayLine<'t> {
    pub names: &'t [u8],
    pub values: &'t [u8],
    pub day: usize,
    pub start: usize,
    ghost fits: { start + length values.now < 2 ^ 63 },
    ghost counts: { day < 2 ^ 63 },
}

impl<'t> DayLine<'t> {
    // The total on the line.
    pub(crate) fn read<K: Total>(&self) -> Result<K, LineFault>
        ensures answer { told K.Total.columns line_found result ≡ read_line K.Total.kind (fields self.now.names.now) self.now.day self.now.start (fields self.now.values.now) }
        ensures place { Placed result }
    {
        self.check()?;
        let bad = LineFault::BadTotal {
            line: self.day + 1,
            byte: self.start,
            day: self.day,
        };
        enter(self.first_number::<K>(), self.second_number::<K>(), bad)
    }

    // That it has the right count of fields, all figures, and is that of the day, one of 1,000.
    fn check(&self) -> Result<(), LineFault>
        ensures answer { told (λ x. x) line_found result ≡ check_line (fields self.now.names.now) self.now.day self.now.start (fields self.now.values.now) }
        ensures place { Placed result }
    {
        let line = self.day + 1;
        let byte = self.start;
        if count_fields(self.values) != count_fields(self.names) {
            return Err(LineFault::BadCount { line, byte });
        }
        self.check_fields().map_err(|fault| fault.on_line(line))?;
        if self.day > MOST_DAYS {
            return Err(LineFault::BeyondDays { line, byte });
        }
        Ok(())
    }

    // That each field is a figure, and then that the line is that of the day.
    fn check_fields(&self) -> Result<(), FieldFault>
        ensures { result ≡ then (at_figure (malformed self.now.start (fields self.now.values.now))) (at_day (is_day self.now.day (number_under (fields self.now.names.now) (fields self.now.values.now) (letters Day))) (start_under self.now.start (fields self.now.names.now) (fields self.now.values.now) (letters Day))) }
    {
        self.check_figures()?;
        self.check_day()
    }

    // That each field is a figure, or else the leftmost that is none.
    fn check_figures(&self) -> Result<(), FieldFault>
        ensures { result ≡ at_figure (malformed self.now.start (fields self.now.values.now)) }
    {
        for (start, field) in Fields::of(self.values) {
            if read_figure(field).is_none() {
                return Err(self.bad_figure(start));
            }
        }
        Ok(())
    }

    // The fault of the field that starts at this byte of the line.
    fn bad_figure(&self, start: usize) -> FieldFault
        requires { start ≤ length self.now.values.now }
        ensures { Err result ≡ at_figure (Some (self.now.start + start)) }
    {
        FieldFault::BadFigure {
            byte: self.start + start,
        }
    }

    // That the line is that of the day, or else where its day stands.
    fn check_day(&self) -> Result<(), FieldFault>
        ensures { result ≡ at_day (is_day self.now.day (number_under (fields self.now.names.now) (fields self.now.values.now) (letters Day))) (start_under self.now.start (fields self.now.names.now) (fields self.now.values.now) (letters Day)) }
    {
        let name = Heading::Day.letters();
        if self.number_under(name) == self.day as i64 {
            Ok(())
        } else {
            Err(FieldFault::BadDay {
                byte: start_under(self.start, self.names, self.values, name),
            })
        }
    }

    // The number under a name.
    // 0 for none, as its definition has it.
    fn number_under(&self, name: &[u8]) -> i64
        ensures { result ≡ number_under (fields self.now.names.now) (fields self.now.values.now) name.now }
    {
        field_of_line(self.names, self.values, name)
            .and_then(|field| read_figure(field))
            .unwrap_or(0)
    }

    // The number under the name of the kind's first column.
    fn first_number<K: Total>(&self) -> i64
        ensures { result ≡ number_under (fields self.now.names.now) (fields self.now.values.now) (letters (heading (first_of K.Total.kind.arity K.Total.kind.names))) }
    {
        self.number_under(first_column::<K>().letters())
    }

    // The number under the name of its second column.
    // 0 for none, as its definition has it.
    fn second_number<K: Total>(&self) -> i64
        ensures { result ≡ number_if (fields self.now.names.now) (fields self.now.values.now) (heading_if (second_of K.Total.kind.arity K.Total.kind.names)) }
    {
        match second_column::<K>() {
            Some(name) => self.number_under(name.letters()),
            None => 0,
        }
    }
}

// The total of these columns, of which a kind of one column has only the first, or nothing where
// the kind has no such value.
fn total_of<K: Total>(first: i64, second: i64) -> Option<K>
    ensures { Gives K.Total.kind K.Total.columns (filled K.Total.kind.arity first second) result }
{
    let total = K::zero().replace(1, first)?;
    match K::name(2) {
        Some(_) => total.replace(2, second),
        None => Some(total),
    }
}

// The total of these columns, or the fault where there is none or it may not be entered.
fn enter<K: Total>(first: i64, second: i64, bad: LineFault) -> Result<K, LineFault>
    ensures answer { told K.Total.columns line_found result ≡ entered K.Total.kind (filled K.Total.kind.arity first second) (Err (line_found bad)) }
    ensures place { OnLine bad → Placed result }
{
    match total_of::<K>(first, second) {
        Some(total) if total.may_enter() => Ok(total),
        _ => Err(bad),
    }
}
