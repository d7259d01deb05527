// Writing a record as a trace text.
ghost use Rattle.std.specs.Prelude.{◌≡◌, ℕ, ◌+◌, ◌^◌, ◌<◌, ◌≤◌, false, List, ◌++◌, map, length};
ghost use Rattle.kinds.specs.Entries.{not_entered};
ghost use Rattle.figures.specs.Headings.{letters, twins};
ghost use Rattle.writing.specs.Fields.{fields};
ghost use Rattle.writing.specs.Laws.{ReadsBack, TextsAgree};
ghost use Rattle.writing.specs.Texts.{trace_headings, trace_values, trace_lines, trace_text, unless_day, in_room, write_record, WritesRecord};
ghost use Rattle.writer.specs.Values.{line, shown};
ghost use Rattle.writer.specs.Written.{pasted, Leaves, Writes};

use crate::fields::Fields;
use crate::pulse_text::{first_of, second_of};
use figures::{Heading, first_column, second_column, twin_names};
use kinds::{MOST_DAYS, Total, first_barred};
use refusals::Refusal;
use writer::{Lines, Naming, Value, room_behind};

// The names of a trace text: `day` and those of the kind's columns.
#[tactic(auto, unfolding(crate::specs::Texts::trace_headings))]
fn trace_names<K: Total>() -> Fields<Heading, 2, 3>
    ensures { fields result ≡ trace_headings K.Total.kind }
{
    let column = first_column::<K>();
    match second_column::<K>() {
        None => Fields::OneColumn([Heading::Day, column]),
        Some(second) => Fields::TwoColumns([Heading::Day, column, second]),
    }
}

// The values of the line of a day.
#[tactic(auto, unfolding(crate::specs::Texts::trace_values))]
fn trace_values<K: Total>(day: usize, total: K) -> Fields<Value, 2, 3>
    ensures { fields result ≡ trace_values K.Total.kind day (K.Total.columns total) }
{
    let day = Value::Count(day);
    let column = Value::Amount(first_of(total));
    match second_of(total) {
        None => Fields::OneColumn([day, column]),
        Some(second) => Fields::TwoColumns([day, column, Value::Amount(second)]),
    }
}

// What is left of so many bytes behind the line of a day, or nothing where it does not fit.
fn room_behind_day<K: Total>(day: usize, total: K, room: usize) -> Option<usize>
    ensures { Leaves (length (line shown (trace_values K.Total.kind day (K.Total.columns total)))) room result }
{
    room_behind(trace_values(day, total).as_slice(), room)
}

// The same behind the lines of all days.
fn room_behind_days<K: Total>(totals: &[K], room: usize) -> Option<usize>
    requires { length totals.now ≤ 1000 }
    ensures { Leaves (length (trace_lines K.Total.kind 1 (map K.Total.columns totals.now))) room result }
{
    let mut left = room;
    for (i, total) in totals.iter().enumerate() {
        left = room_behind_day(i + 1, *total, left)?;
    }
    Some(left)
}

// Writes the line of a day into a buffer that has room for it.
fn put_day<K: Total>(day: usize, total: K, text: Lines, out: &mut [u8]) -> Lines
    requires { text.at + length (line shown (trace_values K.Total.kind day (K.Total.columns total))) ≤ length out.old }
    ensures bytes { out.new ≡ pasted text.at (line shown (trace_values K.Total.kind day (K.Total.columns total))) out.old }
    ensures end { result.at ≡ text.at + length (line shown (trace_values K.Total.kind day (K.Total.columns total))) }
{
    text.line(trace_values(day, total).as_slice(), out)
        .unwrap_or_else(|short| short.state)
}

// The same with the lines of all days.
fn put_days<K: Total>(totals: &[K], named: Lines, out: &mut [u8]) -> Lines
    requires { (length totals.now ≤ 1000) × (named.at + length (trace_lines K.Total.kind 1 (map K.Total.columns totals.now)) ≤ length out.old) }
    ensures bytes { out.new ≡ pasted named.at (trace_lines K.Total.kind 1 (map K.Total.columns totals.now)) out.old }
    ensures end { result.at ≡ named.at + length (trace_lines K.Total.kind 1 (map K.Total.columns totals.now)) }
{
    let mut text = named;
    for (i, total) in totals.iter().enumerate() {
        text = put_day(i + 1, *total, text, out);
    }
    text
}

// Writes the names line and the lines of all days, and answers their bytes, or nothing where the
// buffer is too short for all of them.
fn put_record<K: Total>(totals: &[K], out: &mut [u8]) -> Option<usize>
    requires { length totals.now ≤ 1000 }
    ensures { Writes 0 (trace_text K.Total.kind (map K.Total.columns totals.now)) out.old out.new result }
{
    let fields = trace_names::<K>();
    let names = fields.as_slice();
    let left = room_behind(names, out.len())?;
    room_behind_days(totals, left)?;
    let named = Naming::begin().names(names, out).ok()?;
    Some(put_days(totals, named, out).end().length())
}

// Writes a record of at most 1,000 days.
fn write_days<K: Total>(totals: &[K], out: &mut [u8]) -> Result<usize, Refusal>
    requires { (length totals.now ≤ 1000) × (twins K.Total.kind.arity K.Total.kind.names ≡ false) }
    ensures back { ReadsBack K.Total.kind (map K.Total.columns totals.now) out.new result }
    ensures text { WritesRecord out.old out.new (unless_day (not_entered K.Total.kind 1 (map K.Total.columns totals.now)) (in_room (length out.old) (trace_text K.Total.kind (map K.Total.columns totals.now)))) result }
{
    match first_barred(totals) {
        Some(day) => Err(Refusal::MayNotEnter { day }),
        None => put_record(totals, out).ok_or(Refusal::OutputTooShort),
    }
}

// Writes a record as a trace text, and answers the bytes; those past them stay, and a refusal leaves
// the buffer as it was.
pub fn write_trace<K: Total>(totals: &[K], out: &mut [u8]) -> Result<usize, Refusal>
    ensures back { ReadsBack K.Total.kind (map K.Total.columns totals.now) out.new result }
    ensures text { WritesRecord out.old out.new (write_record K.Total.kind (length out.old) (map K.Total.columns totals.now)) result }
{
    if twin_names::<K>() {
        return Err(Refusal::WrongNames);
    }
    if totals.len() > MOST_DAYS {
        return Err(Refusal::TooManyDays);
    }
    write_days(totals, out)
}

// The law of written trace texts, for proofs above: what is written reads back.
pub fn texts_agree()
    ensures { TextsAgree }
{}
