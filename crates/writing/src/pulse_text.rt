// Pulse texts and the text of a refusal.
ghost use Rattle.std.specs.Prelude.{◌≡◌, ℕ, ◌+◌, ◌≤◌, ◌++◌, length};
ghost use Rattle.figures.specs.Headings.{letters, first, second};
ghost use Rattle.writing.specs.Fields.{fields};
ghost use Rattle.writing.specs.Texts.{pulse_names, pulse_values, refusal_names, refusal_values, refusal_text};
ghost use Rattle.reading.specs.Traces.{told};
ghost use Rattle.writer.specs.Values.{line, shown};
ghost use Rattle.writer.specs.Written.{pasted, Leaves, Writes, Moves};

use crate::fields::Fields;
use figures::{Heading, first_column, second_column};
use kinds::Total;
use refusals::Place;
use shelves::Mark;
use writer::{Lines, Naming, Short, Value, room_behind};

// What a pulse text tells of a pulse in one line.
#[derive(Clone, Copy)]
pub struct PulseLine<K> {
    pub number: usize,
    pub width: usize,
    pub first: usize,
    pub amount: K,
    pub state: Mark,
}

// The names of a pulse text: those of the kind's columns stand between `first` and `state`.
#[tactic(auto, unfolding(crate::specs::Texts::pulse_names))]
fn pulse_names<K: Total>() -> Fields<Heading, 5, 6>
    ensures { fields result ≡ pulse_names K.Total.kind }
{
    let column = first_column::<K>();
    match second_column::<K>() {
        None => Fields::OneColumn([
            Heading::Pulse,
            Heading::Width,
            Heading::First,
            column,
            Heading::State,
        ]),
        Some(second) => Fields::TwoColumns([
            Heading::Pulse,
            Heading::Width,
            Heading::First,
            column,
            second,
            Heading::State,
        ]),
    }
}

// The first column of a total.
pub(crate) fn first_of<K: Total>(total: K) -> i64
    ensures { result ≡ first K.Total.kind.arity (K.Total.columns total) }
{
    total.column(1).unwrap_or(0)
}

// The second column of a total, if it has one.
#[tactic(auto, using(figures::proofs::HeadingFacts::column_second))]
pub(crate) fn second_of<K: Total>(total: K) -> Option<i64>
    ensures { result ≡ second K.Total.kind.arity (K.Total.columns total) }
{
    total.column(2)
}

// The values of the line of a pulse.
#[tactic(auto, unfolding(crate::specs::Texts::pulse_values))]
fn pulse_values<K: Total>(pulse: PulseLine<K>) -> Fields<Value, 5, 6>
    ensures { fields result ≡ pulse_values K.Total.kind pulse.number pulse.width pulse.first (K.Total.columns pulse.amount) pulse.state }
{
    let number = Value::Count(pulse.number);
    let width = Value::Count(pulse.width);
    let day = Value::Count(pulse.first);
    let column = Value::Amount(first_of(pulse.amount));
    let state = Value::Word(pulse.state);
    match second_of(pulse.amount) {
        None => Fields::OneColumn([number, width, day, column, state]),
        Some(second) => {
            Fields::TwoColumns([number, width, day, column, Value::Amount(second), state])
        }
    }
}

// Writes the names line of a pulse text.
pub fn write_pulse_names<K: Total>(text: Naming, out: &mut [u8]) -> Result<Lines, Short<Naming>>
    ensures { Moves text.at (line letters (pulse_names K.Total.kind)) out.old out.new (told (λ s. s.at) (λ e. e.state.at) result) }
{
    text.names(pulse_names::<K>().as_slice(), out)
}

// Writes the line of one pulse: its number, width, first day, amount and state.
pub fn write_pulse<K: Total>(
    text: Lines,
    pulse: PulseLine<K>,
    out: &mut [u8],
) -> Result<Lines, Short<Lines>>
    ensures { Moves text.at (line shown (pulse_values K.Total.kind pulse.number pulse.width pulse.first (K.Total.columns pulse.amount) pulse.state)) out.old out.new (told (λ s. s.at) (λ e. e.state.at) result) }
{
    text.line(pulse_values(pulse).as_slice(), out)
}

// What is left of so many bytes behind the names line of a pulse text, or nothing where it does not fit.
pub fn room_behind_pulse_names<K: Total>(room: usize) -> Option<usize>
    ensures { Leaves (length (line letters (pulse_names K.Total.kind))) room result }
{
    room_behind(pulse_names::<K>().as_slice(), room)
}

// The same behind the line of one pulse.
pub fn room_behind_pulse<K: Total>(pulse: PulseLine<K>, room: usize) -> Option<usize>
    ensures { Leaves (length (line shown (pulse_values K.Total.kind pulse.number pulse.width pulse.first (K.Total.columns pulse.amount) pulse.state))) room result }
{
    room_behind(pulse_values(pulse).as_slice(), room)
}

// Writes a names line and one line of values, and answers their bytes, or nothing where the buffer
// is too short for both.
fn write_two(names: &[Heading], values: &[Value], out: &mut [u8]) -> Option<usize>
    ensures { Writes 0 (line letters names.now ++ line shown values.now) out.old out.new result }
{
    let left = room_behind(names, out.len())?;
    room_behind(values, left)?;
    let named = Naming::begin().names(names, out).ok()?;
    one_line(named, values, out)
}

// Writes one line of values and ends the text, and answers its bytes.
fn one_line(named: Lines, values: &[Value], out: &mut [u8]) -> Option<usize>
    ensures { Writes named.at (line shown values.now) out.old out.new result }
{
    let text = named.line(values, out).ok()?;
    Some(text.end().length())
}

#[tactic(auto, unfolding(crate::specs::Texts::refusal_names))]
fn refusal_names() -> [Heading; 3]
    ensures { result ≡ refusal_names }
{
    [Heading::Refusal, Heading::Line, Heading::Byte]
}

#[tactic(auto, unfolding(crate::specs::Texts::refusal_values))]
fn refusal_values(number: u8, place: Place) -> [Value; 3]
    ensures { result ≡ refusal_values number place }
{
    [
        Value::Count(usize::from(number)),
        Value::Count(place.line),
        Value::Count(place.byte),
    ]
}

// Writes the text of a refusal, and answers its bytes, or nothing where the buffer is too short (14).
pub fn write_refusal(number: u8, place: Place, out: &mut [u8]) -> Option<usize>
    ensures { Writes 0 (refusal_text number place) out.old out.new result }
{
    write_two(&refusal_names(), &refusal_values(number, place), out)
}
