// Trace texts: a record written as a line of names and a line of values for each day.
ghost use Rattle.std.specs.Prelude.{◌≡◌, ℕ, ◌+◌, ◌^◌, ◌<◌, ◌≤◌, Bool, length, slice_set};
ghost use Rattle.reading.specs.Laws.{ReadingLaw};
ghost use Rattle.reading.specs.Parts.{fields, lines};
ghost use Rattle.reading.specs.Refused.{Judged};
ghost use Rattle.refusals.specs.Faults.{line_found, found};
ghost use Rattle.reading.specs.Traces.{read_lines, read_all, read_text, within_room, counted, told, OfReading, Placed, NamesSplit, Reads, ReadsLines};

use crate::fields::{LINE_FEED, cut};
use crate::line::DayLine;
use crate::names::{all_named, check_names};
use figures::twin_names;
use kinds::Total;
use refusals::{FieldFault, FileFault, LineFault, Refusal};

const MOST_BYTES: usize = 40_000;

const NAMES_LINE: usize = 1;

// Puts a total into its place, if the list has one.
fn keep<K: Total>(totals: &mut [K], place: usize, total: K)
    ensures { totals.new ≡ slice_set totals.old place total }
{
    if place < totals.len() {
        totals[place] = total;
    }
}

// The lines of values of a text, under its names line.
#[derive(Clone, Copy)]
struct Body<'t> {
    names: &'t [u8],
    values: &'t [u8],
    ghost fits: { length names.now + 1 + length values.now < 2 ^ 62 },
}

impl<'t> Body<'t> {
    // The number of its days, once all are checked.
    fn count_days<K: Total>(&self) -> Result<usize, LineFault>
        ensures answer { told (λ n. n) line_found result ≡ counted (read_lines K.Total.kind (fields self.now.names.now) 1 (length self.now.names.now + 1) (lines self.now.values.now)) }
        ensures place { Placed result }
    {
        let mut nothing: [K; 0] = [];
        self.read_into(&mut nothing)
    }

    // Reads its days into the list as far as it goes, and answers their number.
    // Stays a loop over cuts: over `split_inclusive` the proof did not close.
    fn read_into<K: Total>(&self, totals: &mut [K]) -> Result<usize, LineFault>
        ensures answer { ReadsLines K.Total.kind K.Total.columns totals.old totals.new (read_lines K.Total.kind (fields self.now.names.now) 1 (length self.now.names.now + 1) (lines self.now.values.now)) result }
        ensures place { Placed result }
    {
        let mut days = 0;
        let mut at = self.names.len() + 1;
        let mut left = self.values;
        loop {
            let (line, more) = cut(left, LINE_FEED);
            let Some(next) = more else {
                if line.is_empty() {
                    return Ok(days);
                }
                return Err(LineFault::BadCount {
                    line: days + 2,
                    byte: at,
                });
            };
            let day_line = DayLine {
                names: self.names,
                values: line,
                day: days + 1,
                start: at,
            };
            let total = day_line.read::<K>()?;
            keep(totals, days, total);
            days += 1;
            at += line.len() + 1;
            left = next;
        }
    }
}

// A text split behind its names line, once the names are checked.
fn split_names<K: Total>(text: &[u8]) -> Result<Body<'_>, LineFault>
    requires { length text.now < 2 ^ 62 }
    ensures answer { NamesSplit K.Total.kind text.now (told (λ b. (b.names.now, b.values.now)) line_found result) }
    ensures place { Placed result }
{
    let (names, more) = cut(text, LINE_FEED);
    check_names::<K>(names).map_err(|fault| fault.on_line(NAMES_LINE))?;
    let missing = LineFault::InField {
        line: NAMES_LINE,
        fault: FieldFault::BadName { byte: names.len() },
    };
    let Some(values) = more else {
        return Err(missing);
    };
    if all_named::<K>(names) {
        Ok(Body { names, values })
    } else {
        Err(missing)
    }
}

// Reads a text of bearable length: all of it is checked before the list is touched.
fn read_lines<K: Total>(text: &[u8], totals: &mut [K]) -> Result<usize, FileFault>
    requires { length text.now < 2 ^ 62 }
    ensures answer { Reads K.Total.kind K.Total.columns totals.old totals.new (within_room (length totals.old) (read_all K.Total.kind (lines text.now))) result }
    ensures stage { OfReading result }
{
    let body = split_names::<K>(text)?;
    let days = body.count_days::<K>()?;
    if totals.len() < days {
        return Err(FileFault::ReadingWhole(Refusal::ListTooShort));
    }
    body.read_into(totals)?;
    Ok(days)
}

// Reads a text of any length: the tests of the whole, then its lines.
fn read_whole<K: Total>(text: &[u8], totals: &mut [K]) -> Result<usize, FileFault>
    ensures answer { Reads K.Total.kind K.Total.columns totals.old totals.new (read_text K.Total.kind (length totals.old) text.now) result }
    ensures stage { OfReading result }
{
    if twin_names::<K>() {
        return Err(FileFault::ReadingWhole(Refusal::WrongNames));
    }
    if text.len() > MOST_BYTES {
        return Err(FileFault::ReadingWhole(Refusal::TextTooLong));
    }
    read_lines(text, totals)
}

// The same, by the law of refusals: a refusal is the first condition that the text meets.
// Apart from the public call, which has no proof file: an edit of that call is then refused by a fact.
fn read_judged<K: Total>(text: &[u8], totals: &mut [K]) -> Result<usize, FileFault>
    ensures answer { Reads K.Total.kind K.Total.columns totals.old totals.new (read_text K.Total.kind (length totals.old) text.now) result }
    ensures stage { OfReading result }
    ensures law { Judged K.Total.kind (length totals.old) text.now (told (λ n. n) found result) }
{
    read_whole(text, totals)
}

// Reads a trace text into the list, and answers the days; entries past them stay, and a refusal
// leaves the list as it was.
pub fn read_trace<K: Total>(text: &[u8], totals: &mut [K]) -> Result<usize, FileFault>
    ensures answer { Reads K.Total.kind K.Total.columns totals.old totals.new (read_text K.Total.kind (length totals.old) text.now) result }
    ensures stage { OfReading result }
    ensures law { Judged K.Total.kind (length totals.old) text.now (told (λ n. n) found result) }
{
    read_judged(text, totals)
}

// The law of reading, for proofs above: what is accepted has the lines of its record, and what is
// refused meets that condition first.
pub fn reading_law()
    ensures { ReadingLaw }
{}
